// What bytes are a list of items.
ghost use Rattle.std.specs.Prelude.{◌≡◌, ◌≢◌, ℕ, List, All};
ghost use Rattle.qm_values.specs.declared.items.fault.ItemFault.{ItemFault as AnyFault};
ghost use Rattle.qm_values.specs.declared.items.fault.ItemFault.TheVariants.{NoMemory};
ghost use Rattle.qm_values.specs.declared.items.item.Item.{Item as AnyItem};
ghost use Rattle.qm_values.specs.ItemFaults.{IsFault};
ghost use Rattle.qm_values.specs.ItemText.{list_text, CanStand};

/// Bytes are one list of items at most, so what is written reads back to the same items. Bytes that are a list have no fault,
/// and others one fault at most.
pub fn lists_are_read_once()
    ensures one { (a b : List AnyItem) → All CanStand a → All CanStand b
        → list_text a ≡ list_text b → a ≡ b }
    ensures no_fault { (items : List AnyItem) (fault : AnyFault) → All CanStand items
        → IsFault (list_text items) fault → fault ≡ NoMemory }
    ensures one_fault { (bytes : List ℕ) (f g : AnyFault) → f ≢ NoMemory → g ≢ NoMemory
        → IsFault bytes f → IsFault bytes g → f ≡ g }
{}
