//! The next members on one side of a key, as many as a page has places for.
ghost use Rattle.std.specs.Prelude.{◌≡◌, ◌+◌, ◌-◌, ◌*◌, ◌^◌, ◌<◌, ◌++◌, ◌↔◌, All, length, take, reverse, IsTrue};
ghost use Rattle.aug_model.specs.Keys.{list_of};
ghost use Rattle.aug_model.specs.NodeKeys.{first_key, end_key, keys_below};
ghost use Rattle.aug_query.specs.Descend.{Descends, loads};
ghost use Rattle.aug_query.specs.Tree.{IsTreeSet};
ghost use Rattle.aug_query.specs.Yields.{members_from, members_below};
ghost use Rattle.aug_query.specs.inside.Paths.{ReachesNode, HasCount};
ghost use Rattle.aug_query.specs.inside.Pages.{Reaches, crosses, place_of_first, place_of_second, part_of};

use crate::{Descend, Query};
use arrayvec::ArrayVec;
use aug_monoid::Monoid;

/// Some members, each with its weight.
pub type Page = ArrayVec<(u32, u32), 32>;

/// The first 32 members from this key on, rising, or all of them if there are fewer. The next page begins behind the last of them.
#[derive(Clone, Copy)]
pub struct MembersFrom(pub u32);

impl<A: Monoid, B: Monoid> Query<A, B> for MembersFrom {
    type Answer = Page;

    ghost Answers = { λ q set page. (page.items ≡ take 32 (members_from set q.0)) × All (λ p. p.0 < 2 ^ 16) page.items };

    ghost most = { λ q set. loads (66 * set.bits + 1) (33 * set.bits + 1) 0 0 };

    fn run<D: Descend<A, B>>(self, tree: &mut D) -> Page {
        page_of(tree, Stretch::From(self.0))
    }
}

/// The last 32 members below this key, falling, or all of them if there are fewer. The next page is below the last of them.
#[derive(Clone, Copy)]
pub struct MembersBelow(pub u32);

impl<A: Monoid, B: Monoid> Query<A, B> for MembersBelow {
    type Answer = Page;

    ghost Answers = { λ q set page. page.items ≡ take 32 (reverse (members_below set q.0)) };

    ghost most = { λ q set. loads (66 * set.bits + 1) (33 * set.bits + 1) 0 0 };

    fn run<D: Descend<A, B>>(self, tree: &mut D) -> Page {
        page_of(tree, Stretch::Below(self.0))
    }
}

// The stretch of keys that is listed: from a key on, rising, or below it, falling.
#[derive(Clone, Copy)]
enum Stretch {
    From(u32),
    Below(u32),
}

// The first members of a stretch.
fn page_of<A: Monoid, B: Monoid, D: Descend<A, B>>(tree: &mut D, stretch: Stretch) -> Page
    ensures answer { result.items ≡ take 32 (part_of stretch (D.set_of tree.old).pairs 0 (2 ^ (D.set_of tree.old).bits)) }
    ensures set { IsTreeSet (D.set_of tree.old) }
    ensures descends { Descends D.set_of D.loads_of D.Names D.KeepsRest (66 * (D.set_of tree.old).bits + 1) (33 * (D.set_of tree.old).bits + 1) 0 0 tree.old tree.new }
{
    let bits = tree.bits();
    let top = tree.top();
    let count = tree.count(bits, 0, &top);
    let mut page = ArrayVec::new();
    append_members(tree, stretch, bits, 0, &top, count, &mut page);
    page
}

// Appends to a page the members of a stretch that a node covers, as many as it has places for. The node covers `count` members.
fn append_members<A: Monoid, B: Monoid, D: Descend<A, B>>(
    tree: &mut D,
    stretch: Stretch,
    level: u32,
    place: u32,
    node: &D::Name,
    count: u32,
    page: &mut Page,
)
    requires { HasCount (D.Names tree.old) (D.set_of tree.old) level place node.now count }
    ensures answer { page.new.items ≡ page.old.items ++ take (32 - length page.old.items) (part_of stretch (D.set_of tree.old).pairs (first_key level place) (end_key level place)) }
    ensures descends { Descends D.set_of D.loads_of D.Names D.KeepsRest (2 * level * (length page.new.items - length page.old.items + crosses stretch (first_key level place) (end_key level place))) (level * (length page.new.items - length page.old.items + crosses stretch (first_key level place) (end_key level place))) 0 0 tree.old tree.new }
{
    if count == 0 || page.is_full() {
        return;
    }
    if !stretch.reaches(tree, level, place, node) {
        return;
    }
    if level == 0 {
        page.push((place, tree.weight(place, node)));
        return;
    }
    let (child, at) = stretch.first_child(tree, level - 1, place, node);
    let some = tree.count(level - 1, at, &child);
    append_members(tree, stretch, level - 1, at, &child, some, page);
    if some == count || page.is_full() {
        return;
    }
    let (child, at) = stretch.second_child(tree, level - 1, place, node);
    append_members(tree, stretch, level - 1, at, &child, count - some, page);
}

impl Stretch {
    // Whether a node covers keys of it.
    #[inline(always)]
    fn reaches<A: Monoid, B: Monoid, D: Descend<A, B>>(
        self,
        tree: &D,
        level: u32,
        place: u32,
        node: &D::Name,
    ) -> bool
        requires { D.Names tree.now level place node.now }
        ensures { IsTrue result ↔ Reaches self (first_key level place) (end_key level place) }
    {
        match self {
            Stretch::From(k) => k >> level <= place,
            Stretch::Below(k) => place << level < k,
        }
    }

    // The child whose members come first, and its place.
    #[inline(always)]
    fn first_child<A: Monoid, B: Monoid, D: Descend<A, B>>(
        self,
        tree: &mut D,
        level: u32,
        place: u32,
        node: &D::Name,
    ) -> (D::Name, u32)
        requires { D.Names tree.old (level + 1) place node.now }
        ensures child { ReachesNode D.set_of D.loads_of D.Names D.KeepsRest 1 0 0 0 level result.1 tree.old result.0 tree.new }
        ensures place { result.1 ≡ place_of_first self place }
    {
        match self {
            Stretch::From(_) => (tree.left(level, place, node), 2 * place),
            Stretch::Below(_) => (tree.right(level, place, node), 2 * place + 1),
        }
    }

    // The other child, and its place.
    #[inline(always)]
    fn second_child<A: Monoid, B: Monoid, D: Descend<A, B>>(
        self,
        tree: &mut D,
        level: u32,
        place: u32,
        node: &D::Name,
    ) -> (D::Name, u32)
        requires { D.Names tree.old (level + 1) place node.now }
        ensures child { ReachesNode D.set_of D.loads_of D.Names D.KeepsRest 1 0 0 0 level result.1 tree.old result.0 tree.new }
        ensures place { result.1 ≡ place_of_second self place }
    {
        match self {
            Stretch::From(_) => (tree.right(level, place, node), 2 * place + 1),
            Stretch::Below(_) => (tree.left(level, place, node), 2 * place),
        }
    }
}
