// A list that only proofs read.
ghost use Rattle.std.specs.Prelude.{◌≡◌, List, [], ◌∷◌, ◌++◌};
ghost use Rattle.std.specs.Borrow.{ftrue};

use std::marker::{Model, PhantomData};

/// What was told so far: clauses read it as `items`. It takes no memory, so it may grow for ever, and its calls do nothing when
/// they run. Only code that is generic over what tells it can rest on it.
#[derive(Drop)]
pub(crate) struct Told<T> {
    of: PhantomData<T>,
    pub(crate) ghost items: { List T },
}

impl<T> Model for Told<T> {
    ghost also_owns = { λ _. ftrue };
}

impl<T> Told<T> {
    /// Nothing was told yet.
    pub(crate) fn new() -> Told<T>
        ensures { result.items ≡ [] }
    {
        Told { of: PhantomData }
    }

    /// What was told, and then this.
    pub(crate) fn and(&self, next: &T) -> Told<T>
        ensures { result.items ≡ self.now.items ++ next.now ∷ [] }
    {
        Told { of: PhantomData }
    }
}
