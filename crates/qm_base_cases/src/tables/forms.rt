// Forms and characteristics that are defined, found and deleted.
ghost use Rattle.std.specs.Prelude.{◌≡◌, []};

use crate::tables::rows::form;
use qm_kinds::{Characteristic, NameOrNumber, batch_queue, print_queue, system_user};
use qm_tables::FormTable;
use std::alloc::{AllocError, Global};
use std::test::Fail;

// Defines the form 7 and the characteristic 5, both of the name `SYS$BATCH`, the first ones.
fn define(table: &mut FormTable) -> Result<(), AllocError>
    requires forms { table.old.forms ≡ [] }
    requires characteristics { table.old.characteristics ≡ [] }
{
    let name = batch_queue();
    table.reserve_form()?;
    table.define_form(form(name, 7));
    table.reserve_characteristic()?;
    table.define_characteristic(Characteristic { name, number: 5 });
    Ok(())
}

// Whether a copy of the forms has this one.
fn is_in_copy(alloc: Global, table: &FormTable, form: &NameOrNumber) -> Result<bool, AllocError> {
    let copy = FormTable::of(alloc, table.forms(), &[])?;
    Ok(copy.form(form).is_some())
}

// Whether the form and the characteristic are found by name and by number.
fn are_found(alloc: Global, table: &FormTable) -> Result<[bool; 6], AllocError> {
    let name = batch_queue();
    let wanted = [NameOrNumber::Name(name), NameOrNumber::Number(5)];
    Ok([
        table.form(&NameOrNumber::Number(7)).is_some(),
        table.stock_of(&name) == Some(print_queue()),
        table.characteristic(&wanted[1]).is_some(),
        table.refused_characteristics(&wanted).is_none(),
        table.set_of(&wanted).contains(5),
        is_in_copy(alloc, table, &wanted[0])?,
    ])
}

// Deletes the form and the characteristic by their name. By another name nothing is deleted.
fn delete(table: &mut FormTable) -> [bool; 3] {
    let name = batch_queue();
    table.delete_form(&system_user());
    let is_left = table.forms().len() == 1;
    table.delete_form(&name);
    let is_deleted = table.forms().is_empty();
    table.delete_characteristic(&name);
    [is_left, is_deleted, table.characteristics().is_empty()]
}

// A form and a characteristic are defined, found and deleted.
fn come_and_go(alloc: Global, table: &mut FormTable) -> Result<([bool; 6], [bool; 3]), AllocError>
    requires forms { table.old.forms ≡ [] }
    requires characteristics { table.old.characteristics ≡ [] }
{
    define(table)?;
    let found = are_found(alloc, table)?;
    Ok((found, delete(table)))
}

#[test]
fn forms_are_found(rt: HostRuntime) -> Result<(), Fail> {
    let mut table = FormTable::new(rt.alloc());
    let end = come_and_go(rt.alloc(), &mut table);
    drop(table);
    let (found, deleted) = end?;
    assert!(rt; found == [true; 6]);
    assert!(rt; deleted == [true; 3]);
    Ok(())
}
