// The forms and characteristics in order of their numbers, and the forms in order of their names too.
ghost use Rattle.std.specs.Prelude.{◌≡◌, ◌-◌, ◌<◌, ◌≤◌, [], false, Some, IfOk, OnErr, OnOk, option_copied};
ghost use Rattle.qm_model.specs.Common.{LAST_CHARACTERISTIC, is_characteristic_taken, form_wanted, characteristic_wanted, stock_of, is_form_taken, with_form, with_characteristic_defined};
ghost use Rattle.qm_model.specs.Wanted.{refused_characteristics, set_of};
ghost use Rattle.qm_tables.specs.Forms.{without_form, without_characteristic, KeepsFormRoom, KeepsCharacteristicRoom};
ghost use Rattle.qm_tables.specs.FormsNumbered.{AreKept, AreKeptForms, AreKeptCharacteristics};

use crate::forms::names::{by_name, take_out};
use crate::forms::wanted::{find_characteristic, find_form, refused_characteristics, set_of};
use qm_keyed::{place_of, put};
use qm_kinds::{Characteristic, CharacteristicSet, Form, Name, NameOrNumber, Refusal};
use std::alloc::{AllocError, Global};
use std::marker::Model;

/// The forms and characteristics of a site, each under a name and a number of its own. Contracts see a `Defined`: both in
/// order of their numbers, and how many more of each have room.
///
/// Only `of`, `reserve_form` and `reserve_characteristic` take memory. A look at a form, by its name or by its number, asks
/// a logarithm of the forms, of which a site has at most 1,000: they are kept in order of their names too. A look at a
/// characteristic goes through them from the first on: there are at most 128, and only a request that names one looks. A
/// definition asks a logarithm of the forms, or the characteristics, for its place, and moves those that stand behind it;
/// a deletion goes through them.
#[derive(Drop)]
pub struct FormTable {
    forms: Vec<Form>,
    // The same forms, in order of their names.
    by_name: Vec<Form>,
    characteristics: Vec<Characteristic>,
}

impl Model for FormTable {
    ghost use Rattle.std.specs.Prelude.{◌-◌, min, vec_len, vec_capacity};
    ghost use Rattle.qm_tables.specs.Forms.{Defined};
    ghost use Rattle.qm_tables.specs.FormsNamed.{AreByName};
    ghost use Rattle.qm_tables.specs.FormsNumbered.{AreKept};

    ghost Value = { Defined };

    ghost view = { λ t. record {
      forms = t.forms.items;
      characteristics = t.characteristics.items;
      spare_forms = min (vec_capacity t.forms - vec_len t.forms) (vec_capacity t.by_name - vec_len t.by_name);
      spare_characteristics = vec_capacity t.characteristics - vec_len t.characteristics;
    } };

    ghost invariant = { λ t. AreKept t.forms.items t.characteristics.items × AreByName t.forms.items t.by_name.items };
}

impl FormTable {
    /// No form and no characteristic, and room for none. It takes no memory.
    pub fn new(alloc: Global) -> FormTable
        ensures { result ≡ record {
          forms = [];
          characteristics = [];
          spare_forms = 0;
          spare_characteristics = 0;
        } }
    {
        FormTable {
            forms: Vec::new(alloc),
            by_name: Vec::new(alloc),
            characteristics: Vec::new(alloc),
        }
    }

    /// A table of these forms and characteristics, each in order of their numbers and under names of their own. It copies
    /// them.
    pub fn of(
        alloc: Global,
        forms: &[Form],
        characteristics: &[Characteristic],
    ) -> Result<FormTable, AllocError>
        requires { AreKept forms.now characteristics.now }
        ensures forms { IfOk result (λ table. table.forms ≡ forms.now) }
        ensures characteristics { IfOk result (λ table. table.characteristics ≡ characteristics.now) }
    {
        let by_name = by_name(alloc, forms)?;
        let forms = Vec::from_slice(alloc, forms)?;
        let characteristics = Vec::from_slice(alloc, characteristics)?;
        Ok(FormTable {
            forms,
            by_name,
            characteristics,
        })
    }

    /// Makes room for one form more. Where there is room it takes no memory, and succeeds.
    pub fn reserve_form(&mut self) -> Result<(), AllocError>
        ensures ok { OnOk result (0 < self.new.spare_forms) }
        ensures err { OnErr result (self.old.spare_forms ≡ 0) }
        ensures no_less { self.old.spare_forms ≤ self.new.spare_forms }
        ensures defined { self.new ≡ record self.old { spare_forms = self.new.spare_forms } }
    {
        self.by_name.reserve(1)?;
        self.forms.reserve(1)
    }

    /// Makes room for one characteristic more. Where there is room it takes no memory, and succeeds.
    pub fn reserve_characteristic(&mut self) -> Result<(), AllocError>
        ensures ok { OnOk result (0 < self.new.spare_characteristics) }
        ensures err { OnErr result (self.old.spare_characteristics ≡ 0) }
        ensures no_less { self.old.spare_characteristics ≤ self.new.spare_characteristics }
        ensures defined { self.new ≡ record self.old {
          spare_characteristics = self.new.spare_characteristics;
        } }
    {
        self.characteristics.reserve(1)
    }

    /// Puts a form in its place. There is room for it, and no form has its name or its number.
    pub fn define_form(&mut self, form: Form)
        requires room { 0 < self.old.spare_forms }
        requires free { is_form_taken self.old.forms form ≡ false }
        ensures { self.new ≡ record self.old {
          forms = with_form form self.old.forms;
          spare_forms = self.old.spare_forms - 1;
        } }
    {
        let Err(place) = place_of(&self.forms, &form.number) else {
            unreachable!()
        };
        let Err(place_by_name) = place_of(&self.by_name, &form.name) else {
            unreachable!()
        };
        put(&mut self.forms, place, form);
        put(&mut self.by_name, place_by_name, form);
    }

    /// Puts a characteristic in its place by number, which is at most 127. There is room for it, and no characteristic has
    /// its name or its number.
    pub fn define_characteristic(&mut self, characteristic: Characteristic)
        requires room { 0 < self.old.spare_characteristics }
        requires small { characteristic.number ≤ LAST_CHARACTERISTIC }
        requires free { is_characteristic_taken self.old.characteristics characteristic ≡ false }
        ensures { self.new ≡ record self.old {
          characteristics = with_characteristic_defined characteristic self.old.characteristics;
          spare_characteristics = self.old.spare_characteristics - 1;
        } }
    {
        let Err(place) = place_of(&self.characteristics, &characteristic.number) else {
            unreachable!()
        };
        put(&mut self.characteristics, place, characteristic);
    }

    /// Takes out the form of a name. Where there is none, nothing changes. Its room stays.
    pub fn delete_form(&mut self, name: &Name)
        ensures forms { self.new ≡ record self.old {
          forms = without_form name.now self.old.forms;
          spare_forms = self.new.spare_forms;
        } }
        ensures room { KeepsFormRoom self.old self.new }
    {
        take_out(&mut self.forms, name);
        take_out(&mut self.by_name, name);
    }

    /// Takes out the characteristic of a name. Where there is none, nothing changes. Its room stays.
    pub fn delete_characteristic(&mut self, name: &Name)
        ensures characteristics { self.new ≡ record self.old {
          characteristics = without_characteristic name.now self.old.characteristics;
          spare_characteristics = self.new.spare_characteristics;
        } }
        ensures room { KeepsCharacteristicRoom self.old self.new }
    {
        self.characteristics
            .retain(|characteristic| characteristic.name != *name);
    }

    /// The form of a name or a number.
    pub fn form(&self, wanted: &NameOrNumber) -> Option<&Form>
        ensures { option_copied result ≡ form_wanted wanted.now self.now.forms }
    {
        find_form(&self.forms, &self.by_name, wanted)
    }

    /// The characteristic of a name or a number.
    pub fn characteristic(&self, wanted: &NameOrNumber) -> Option<&Characteristic>
        ensures { option_copied result ≡ characteristic_wanted wanted.now self.now.characteristics }
    {
        find_characteristic(&self.characteristics, wanted)
    }

    /// The stock of the form of a name.
    pub fn stock_of(&self, form: &Name) -> Option<Name>
        ensures { result ≡ stock_of self.now.forms (Some form.now) }
    {
        self.form(&NameOrNumber::Name(*form)).map(|form| form.stock)
    }

    /// The refusal of the first of these characteristics that isn't defined.
    pub fn refused_characteristics(&self, wanted: &[NameOrNumber]) -> Option<Refusal>
        ensures { result ≡ refused_characteristics self.now.characteristics wanted.now }
    {
        refused_characteristics(&self.characteristics, wanted)
    }

    /// The set of these characteristics. Those that aren't defined aren't in it.
    pub fn set_of(&self, wanted: &[NameOrNumber]) -> CharacteristicSet
        ensures { result.0 ≡ set_of self.now.characteristics wanted.now }
    {
        CharacteristicSet(set_of(&self.characteristics, wanted))
    }

    /// The forms.
    pub fn forms(&self) -> &[Form]
        ensures value { result.now ≡ self.now.forms }
        ensures kept { AreKeptForms self.now.forms }
    {
        &self.forms
    }

    /// The characteristics.
    pub fn characteristics(&self) -> &[Characteristic]
        ensures value { result.now ≡ self.now.characteristics }
        ensures kept { AreKeptCharacteristics self.now.characteristics }
    {
        &self.characteristics
    }
}
