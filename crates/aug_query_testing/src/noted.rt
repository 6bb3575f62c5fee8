ghost use Rattle.std.specs.Prelude.{◌≡◌, ℕ, List};
ghost use Rattle.std.specs.Borrow.{ftrue};

use std::marker::Model;

/// The keys of a set and their weights. Only contracts read them: they take no bytes, and nothing is done when they are noted.
/// The invariant of the tree that holds them ties them to its nodes.
#[derive(Drop)]
pub(crate) struct NotedPairs {
    pub(crate) ghost list: { List (ℕ × ℕ) },
}

impl Model for NotedPairs {
    ghost also_owns = { λ _. ftrue };
}

impl NotedPairs {
    /// The pairs of the slice.
    pub(crate) fn of(pairs: &[(u32, u32)]) -> NotedPairs
        ensures { result.list ≡ pairs.now }
    {
        let _ = pairs;
        NotedPairs {}
    }
}
