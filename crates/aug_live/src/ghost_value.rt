//! A value that only clauses read.
ghost use Rattle.std.specs.Prelude.{◌≡◌};

use std::marker::{Model, PhantomData, Send};

/// A `T` as clauses saw it. It has no bytes and owns nothing. (The `Snapshot` of std is the same, but cannot be declared to go to
/// another thread.)
pub(crate) struct GhostValue<T> {
    of: PhantomData<T>,
    pub ghost value: { T },
}

impl<T> Model for GhostValue<T> {
    ghost use base.Fml.{ftrue};

    ghost also_owns = { λ _. ftrue };
}

impl<T> GhostValue<T> {
    /// What the reference shows.
    #[inline(always)]
    pub(crate) fn of(x: &T) -> GhostValue<T>
        ensures { result.value ≡ x.now }
    {
        let _ = x;
        GhostValue { of: PhantomData }
    }
}

unsafe impl<T> Send for GhostValue<T> {}

impl<T> Drop for GhostValue<T> {
    fn drop(self) {
        let Self { of: _ } = self;
    }
}
