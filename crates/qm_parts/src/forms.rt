// What becomes of forms and characteristics.
ghost use Rattle.std.specs.Prelude.{◌≡◌, ◌≤◌, ◌<◌, ◌-◌, false, OnErr, OnOk};
ghost use Rattle.qm_model.specs.Common.{LAST_CHARACTERISTIC, is_characteristic_taken, is_form_taken, with_form, with_characteristic_defined};
ghost use Rattle.qm_tables.specs.Forms.{without_form, without_characteristic};
ghost use Rattle.qm_parts.specs.Spare.{KeepsCharacteristicRoom, KeepsFormRoom};

use crate::tables::TableSet;
use qm_kinds::{Characteristic, Form, Name};
use std::alloc::AllocError;

impl TableSet {
    /// Makes room for one form more. Where there is room it takes no memory, and succeeds.
    pub fn reserve_form(&mut self) -> Result<(), AllocError>
        ensures ok { OnOk result (0 < self.new.spare_forms) }
        ensures err { OnErr result (self.old.spare_forms ≡ 0) }
        ensures no_less { self.old.spare_forms ≤ self.new.spare_forms }
        ensures tables { self.new ≡ record self.old { spare_forms = self.new.spare_forms } }
    {
        self.forms.reserve_form()
    }

    /// Makes room for one characteristic more. Where there is room it takes no memory, and succeeds.
    pub fn reserve_characteristic(&mut self) -> Result<(), AllocError>
        ensures ok { OnOk result (0 < self.new.spare_characteristics) }
        ensures err { OnErr result (self.old.spare_characteristics ≡ 0) }
        ensures no_less { self.old.spare_characteristics ≤ self.new.spare_characteristics }
        ensures tables { self.new ≡ record self.old {
          spare_characteristics = self.new.spare_characteristics;
        } }
    {
        self.forms.reserve_characteristic()
    }

    /// Puts a form in its place by number. There is room for it, and no form has its name or its number.
    pub fn define_form(&mut self, form: Form)
        requires room { 0 < self.old.spare_forms }
        requires free { is_form_taken self.old.forms form ≡ false }
        ensures { self.new ≡ record self.old {
          forms = with_form form self.old.forms;
          spare_forms = self.old.spare_forms - 1;
        } }
    {
        self.forms.define_form(form);
    }

    /// Puts a characteristic in its place by number, which is at most 127. There is room for it, and no characteristic has
    /// its name or its number.
    pub fn define_characteristic(&mut self, characteristic: Characteristic)
        requires room { 0 < self.old.spare_characteristics }
        requires small { characteristic.number ≤ LAST_CHARACTERISTIC }
        requires free { is_characteristic_taken self.old.characteristics characteristic ≡ false }
        ensures { self.new ≡ record self.old {
          characteristics = with_characteristic_defined characteristic self.old.characteristics;
          spare_characteristics = self.old.spare_characteristics - 1;
        } }
    {
        self.forms.define_characteristic(characteristic);
    }

    /// Takes out the form of a name. Where there is none, nothing changes. Its room stays.
    pub fn delete_form(&mut self, name: &Name)
        ensures forms { self.new ≡ record self.old {
          forms = without_form name.now self.old.forms;
          spare_forms = self.new.spare_forms;
        } }
        ensures room { KeepsFormRoom self.old self.new }
    {
        self.forms.delete_form(name);
    }

    /// Takes out the characteristic of a name. Where there is none, nothing changes. Its room stays.
    pub fn delete_characteristic(&mut self, name: &Name)
        ensures characteristics { self.new ≡ record self.old {
          characteristics = without_characteristic name.now self.old.characteristics;
          spare_characteristics = self.new.spare_characteristics;
        } }
        ensures room { KeepsCharacteristicRoom self.old self.new }
    {
        self.forms.delete_characteristic(name);
    }
}
