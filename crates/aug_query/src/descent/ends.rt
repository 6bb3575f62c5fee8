//! The first and the last member, of all and of an interval. The trie's second monoid is `Extent`, which has both.
ghost use Rattle.std.specs.Prelude.{◌≡◌, ◌-◌, ◌*◌, option_map};
ghost use Rattle.aug_model.specs.Keys.{list_of};
ghost use Rattle.aug_model.specs.Queries.{first_of, last_of, range_of};
ghost use Rattle.aug_query.specs.Descend.{loads};

use super::intervals::Range;
use crate::{Descend, Query};
use aug_monoid::{Extent, Monoid};

/// The first member, if there is one. Only the top's summary is read.
#[derive(Clone, Copy)]
pub struct First;

impl<A: Monoid> Query<A, Extent> for First {
    type Answer = Option<u32>;

    ghost Answers = { λ q set answer. answer ≡ first_of (list_of set) };

    ghost most = { λ q set. loads 1 0 1 0 };

    #[inline(always)]
    fn run<D: Descend<A, Extent>>(self, tree: &mut D) -> Option<u32> {
        let bits = tree.bits();
        let top = tree.top();
        least_of(tree.summary(bits, 0, &top).b)
    }
}

/// The last member, if there is one. Only the top's summary is read.
#[derive(Clone, Copy)]
pub struct Last;

impl<A: Monoid> Query<A, Extent> for Last {
    type Answer = Option<u32>;

    ghost Answers = { λ q set answer. answer ≡ last_of (list_of set) };

    ghost most = { λ q set. loads 1 0 1 0 };

    #[inline(always)]
    fn run<D: Descend<A, Extent>>(self, tree: &mut D) -> Option<u32> {
        let bits = tree.bits();
        let top = tree.top();
        greatest_of(tree.summary(bits, 0, &top).b)
    }
}

/// The least member from the first key on that is below the second, if there is one.
#[derive(Clone, Copy)]
pub struct Least(pub u32, pub u32);

impl<A: Monoid> Query<A, Extent> for Least {
    type Answer = Option<u32>;

    ghost Answers = { λ q set answer. answer ≡ first_of (range_of (list_of set) q.0 q.1) };

    ghost most = { λ q set. loads (4 * set.bits - 1) 0 (2 * set.bits) 0 };

    #[inline(always)]
    fn run<D: Descend<A, Extent>>(self, tree: &mut D) -> Option<u32> {
        let Least(a, b) = self;
        // It tells that the members rise.
        let _bits = tree.bits();
        least_of(Range(a, b).run(tree).b)
    }
}

/// The greatest member from the first key on that is below the second, if there is one.
#[derive(Clone, Copy)]
pub struct Greatest(pub u32, pub u32);

impl<A: Monoid> Query<A, Extent> for Greatest {
    type Answer = Option<u32>;

    ghost Answers = { λ q set answer. answer ≡ last_of (range_of (list_of set) q.0 q.1) };

    ghost most = { λ q set. loads (4 * set.bits - 1) 0 (2 * set.bits) 0 };

    #[inline(always)]
    fn run<D: Descend<A, Extent>>(self, tree: &mut D) -> Option<u32> {
        let Greatest(a, b) = self;
        // It tells that the members rise.
        let _bits = tree.bits();
        greatest_of(Range(a, b).run(tree).b)
    }
}

// The least key of an extent.
#[inline(always)]
fn least_of(extent: Extent) -> Option<u32>
    ensures { result ≡ option_map (λ b. b.0) extent }
{
    extent.bounds().map(|(least, _)| least)
}

// The greatest one.
#[inline(always)]
fn greatest_of(extent: Extent) -> Option<u32>
    ensures { result ≡ option_map (λ b. b.1) extent }
{
    extent.bounds().map(|(_, greatest)| greatest)
}
