ghost use Rattle.std.specs.Prelude.{◌≡◌, ℕ, ◌+◌};
ghost use Rattle.std.specs.Borrow.{ftrue};

use std::marker::{Model, Send, Sync};

/// A number of calls, such as those of `left` and `right` that a tree had. Only contracts read it: it takes no bytes, and its
/// methods do nothing when they run.
#[derive(Debug, Drop)]
pub struct Calls {
    pub ghost made: { ℕ },
}

impl Model for Calls {
    ghost also_owns = { λ _. ftrue };
}

// A struct with `also_owns` has neither by itself. This one owns nothing.
unsafe impl Send for Calls {}

unsafe impl Sync for Calls {}

impl Calls {
    /// No calls so far.
    pub fn new() -> Calls
        ensures { result.made ≡ 0 }
    {
        Calls {}
    }

    /// These calls and one more.
    pub fn one_more(&self) -> Calls
        ensures { result.made ≡ self.now.made + 1 }
    {
        Self {}
    }
}
