// Laws of spellings: what a value is spelled as says that value, and what is read has a spelling.
ghost use Rattle.std.specs.Prelude.{◌≡◌, ◌≤◌, ◌<◌, ◌^◌, ℕ, List, Some, Ok, IsSome, decimal};
ghost use Rattle.qm_model.specs.Common.{name_of, IsText, is_name_byte, is_pattern_byte, Input, LAST_MOMENT};
ghost use Rattle.qm_dcl.specs.Values.{moment_said, number_to, pattern_said, unquoted};
ghost use Rattle.qm_dcl.specs.Command.{command_of};
ghost use Rattle.qm_spelling.specs.Commands.{spelling_of};
ghost use Rattle.qm_sayable.specs.Times.{time_text};

use qm_time::printed_moments_read_back;

/// A number in decimal says that number, where it isn't above the most.
pub fn numbers_read_back()
    ensures { (most n : ℕ) → n ≤ most → n < 2 ^ 64 → number_to most (decimal n) ≡ Some n }
{}

/// A name says that name.
pub fn names_read_back()
    ensures { (name : List ℕ) → IsText is_name_byte name → name_of name ≡ Some name }
{}

/// A pattern says that pattern.
pub fn patterns_read_back()
    ensures { (pattern : List ℕ) → IsText is_pattern_byte pattern
        → pattern_said pattern ≡ Some pattern }
{}

/// A time in quotes says the moment that it is spelled of, whatever the present one is.
pub fn times_read_back()
    ensures { (moment now : ℕ) → moment ≤ LAST_MOMENT
        → moment_said now (unquoted (time_text moment)) ≡ Some moment }
{
    printed_moments_read_back();
}

/// What a text asks for has a spelling, whoever types it and whenever it is read.
pub fn what_is_read_has_a_spelling()
    ensures { (user : List ℕ) (now : ℕ) (text : List ℕ) (input : Input)
        → command_of user now text ≡ Ok input → IsSome (spelling_of input) }
{}
