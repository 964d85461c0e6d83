// Refusals in their order.
ghost use Rattle.std.specs.Prelude.{◌≡◌};
ghost use Rattle.qm_model.specs.Outcome.{first_refusal, refused_where};

use qm_kinds::Refusal;

/// The first refusal of a list, in which each place is a refusal or none.
pub fn first_refusal(refusals: &[Option<Refusal>]) -> Option<Refusal>
    ensures { result ≡ first_refusal refusals.now }
{
    for refusal in refusals {
        if refusal.is_some() {
            return *refusal;
        }
    }
    None
}

/// The refusal, where the test holds.
pub fn refused_where(test: bool, refusal: Refusal) -> Option<Refusal>
    ensures { result ≡ refused_where test refusal }
{
    if test { Some(refusal) } else { None }
}
