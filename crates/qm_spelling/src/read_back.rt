// The law of spellings: each full spelling is read as what it was spelled of.
ghost use Rattle.std.specs.Prelude.{ℕ, List};
ghost use Rattle.qm_kinds.specs.declared.input.Input.{Input as AnyInput};
ghost use Rattle.qm_spelling.specs.Lawful.{IsInputOf};
ghost use Rattle.qm_spelling.specs.ReadBack.{ReadsBack};

use crate::laws::times_read_back;

/// The full spelling of what a user can ask for is read as that, at whatever moment this user types it.
pub fn spellings_read_back()
    ensures { (user : List ℕ) (input : AnyInput) → IsInputOf user input → ReadsBack user input }
{
    times_read_back();
}
