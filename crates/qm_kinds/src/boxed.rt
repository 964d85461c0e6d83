// A value in memory of its own.
ghost use Rattle.std.specs.Prelude.{◌≡◌, IfOk};

use std::alloc::{AllocError, Global};
use std::marker::Model;

/// A value in memory of its own, so that whatever holds it stays small. Contracts see the value.
#[derive(Drop)]
pub struct Boxed<T> {
    item: Box<T>,
}

impl<T> Model for Boxed<T> {
    ghost Value = { T };

    ghost view = { λ b. b.item.value };
}

impl<T: Drop> Boxed<T> {
    /// A value, for which memory is taken.
    pub fn new(alloc: Global, item: T) -> Result<Boxed<T>, AllocError>
        ensures { IfOk result (λ boxed. boxed ≡ item) }
    {
        match Box::new(alloc, item) {
            Ok(item) => Ok(Boxed { item }),
            Err(_) => Err(AllocError),
        }
    }
}

impl<T> Boxed<T> {
    /// The value. Its memory is freed.
    pub fn into_inner(self) -> T
        ensures { result ≡ self }
    {
        Box::into_inner(self.item)
    }

    /// The value.
    pub fn get(&self) -> &T
        ensures { result.now ≡ self.now }
    {
        self.item.as_ref()
    }
}
