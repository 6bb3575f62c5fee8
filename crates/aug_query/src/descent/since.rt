//! What changed since a set was listed.
ghost use Rattle.std.specs.Prelude.{◌≡◌, ◌+◌, ◌-◌, ◌*◌, ◌^◌, ◌<◌, ◌≤◌, ◌++◌, ◌↔◌, true, All, length, get_or, max, take};
ghost use Rattle.std.specs.List.Sorted.{IsStrictlyIncreasing};
ghost use Rattle.aug_model.specs.Differences.{changes_from, differences_in};
ghost use Rattle.aug_model.specs.Keys.{list_of};
ghost use Rattle.aug_model.specs.NodeKeys.{first_key, end_key, keys_below};
ghost use Rattle.aug_model.specs.Queries.{weight_of};
ghost use Rattle.aug_model.specs.inside.Boundary.{IsBoundary};
ghost use Rattle.aug_query.specs.Descend.{Descends, DescendsBy};
ghost use Rattle.aug_query.specs.BothMembers.{since_loads};
ghost use Rattle.aug_query.specs.Tree.{IsTreeSet};
ghost use Rattle.aug_query.specs.inside.Paths.{HasCount};
ghost use Rattle.aug_query.specs.inside.Since.{below_both};

use super::changes::Changes;
use crate::member_list::{place_from, weight_at};
use crate::{Descend, MemberList, Query};
use arrayvec::ArrayVec;
use aug_model::Difference;
use aug_monoid::Monoid;

/// What changed since a set was listed, among the keys from `from` on: the first 32 changes, rising, or all of them if there are fewer. The next page
/// begins at the last of these keys plus one, and a page that is not full is the last. The list is of any earlier or later set, also of another trie, and
/// may have keys of fewer bits. The two are compared member by member, so that a page takes up to as many loads as it takes to list the members of both
/// from `from` on, however few of them changed: `next_changes` compares two snapshots of one round in fewer.
#[derive(Drop)]
pub struct ChangesSince<'l, L: MemberList> {
    /// The list.
    pub before: &'l L,
    /// The least key that is looked at.
    pub from: u32,
}

impl<A: Monoid, B: Monoid, L: MemberList> Query<A, B> for ChangesSince<'_, L> {
    type Answer = Changes;

    ghost Answers = { λ q set page. (page.items ≡ take 32 (changes_from (L.set_of q.before.now) set q.from)) × All (λ d. d.key < 2 ^ 16) page.items };

    ghost most = { λ q set. since_loads (L.set_of q.before.now) set q.from };

    fn run<D: Descend<A, B>>(self, tree: &mut D) -> Changes {
        page_since(tree, self.before, self.from)
    }
}

// The first changes since a set was listed.
fn page_since<A: Monoid, B: Monoid, D: Descend<A, B>, L: MemberList>(
    tree: &mut D,
    list: &L,
    from: u32,
) -> Changes
    ensures answer { result.items ≡ take 32 (changes_from (L.set_of list.now) (D.set_of tree.old) from) }
    ensures set { IsTreeSet (D.set_of tree.old) }
    ensures descends { DescendsBy D.set_of D.loads_of D.Names D.KeepsRest (since_loads (L.set_of list.now) (D.set_of tree.old) from) tree.old tree.new }
{
    let bits = tree.bits();
    let top = tree.top();
    let count = tree.count(bits, 0, &top);
    let mut merge = Merge {
        next: place_from(list, from),
        page: ArrayVec::new(),
    };
    append_since(tree, list, from, bits, 0, &top, count, &mut merge);
    merge.page
}

// How far a list and a tree were compared: the place of the list's next member, and the changes that were found.
#[derive(Drop)]
struct Merge {
    next: usize,
    page: Changes,
}

// Appends to the page the changes of the keys from `from` on that the node at a level and a place covers, as many as it has room for. The node covers
// `count` members. A node that covers none of either set is not gone into.
fn append_since<A: Monoid, B: Monoid, D: Descend<A, B>, L: MemberList>(
    tree: &mut D,
    list: &L,
    from: u32,
    level: u32,
    place: u32,
    node: &D::Name,
    count: u32,
    merge: &mut Merge,
)
    requires node { HasCount (D.Names tree.old) (D.set_of tree.old) level place node.now count }
    requires rising { IsStrictlyIncreasing (list_of (L.set_of list.now)) }
    requires next { IsBoundary (list_of (L.set_of list.now)) (max (first_key level place) from) merge.old.next }
    ensures answer { merge.new.page.items ≡ merge.old.page.items ++ take (32 - length merge.old.page.items) (differences_in (L.set_of list.now).pairs (D.set_of tree.old).pairs (max (first_key level place) from) (end_key level place)) }
    ensures next { length merge.new.page.items < 32 → IsBoundary (list_of (L.set_of list.now)) (max (end_key level place) from) merge.new.next }
    ensures descends { Descends D.set_of D.loads_of D.Names D.KeepsRest (2 * level * below_both (L.set_of list.now).pairs (D.set_of tree.old).pairs from level place) (level * below_both (L.set_of list.now).pairs (D.set_of tree.old).pairs from level place) 0 0 tree.old tree.new }
{
    if merge.page.is_full() || from >> level > place {
        return;
    }
    if count == 0 && !is_under(list, merge.next, level, place) {
        return;
    }
    if level == 0 {
        append_change(tree, list, place, node, count, merge);
        return;
    }
    let left = tree.left(level - 1, place, node);
    let some = tree.count(level - 1, 2 * place, &left);
    append_since(tree, list, from, level - 1, 2 * place, &left, some, merge);
    if merge.page.is_full() {
        return;
    }
    let right = tree.right(level - 1, place, node);
    append_since(
        tree,
        list,
        from,
        level - 1,
        2 * place + 1,
        &right,
        count - some,
        merge,
    );
}

// Whether the node at a level and a place covers a list's member or comes behind it.
fn is_under<L: MemberList>(list: &L, next: usize, level: u32, place: u32) -> bool
    requires { level ≤ 16 }
    ensures { (result ≡ true) ↔ ((next < length (L.set_of list.now).pairs) × ((get_or (L.set_of list.now).pairs next (0, 0)).0 < end_key level place)) }
{
    next < list.len() && list.member(next).0 >> level <= place
}

// Appends the change of one key, if there is one, to a page that has room.
fn append_change<A: Monoid, B: Monoid, D: Descend<A, B>, L: MemberList>(
    tree: &D,
    list: &L,
    key: u32,
    leaf: &D::Name,
    count: u32,
    merge: &mut Merge,
)
    requires node { HasCount (D.Names tree.now) (D.set_of tree.now) 0 key leaf.now count }
    requires next { IsBoundary (list_of (L.set_of list.now)) key merge.old.next }
    requires room { length merge.old.page.items < 32 }
    ensures answer { merge.new.page.items ≡ merge.old.page.items ++ differences_in (L.set_of list.now).pairs (D.set_of tree.now).pairs key (key + 1) }
    ensures next { IsBoundary (list_of (L.set_of list.now)) (key + 1) merge.new.next }
{
    let before = weight_at(list, key, &mut merge.next);
    let after = weight_of_member(tree, key, leaf, count);
    if before != after {
        merge.page.push(Difference { key, before, after });
    }
}

// What the key of a leaf that covers so many members weighs.
fn weight_of_member<A: Monoid, B: Monoid, D: Descend<A, B>>(
    tree: &D,
    key: u32,
    leaf: &D::Name,
    count: u32,
) -> Option<u32>
    requires { HasCount (D.Names tree.now) (D.set_of tree.now) 0 key leaf.now count }
    ensures { result ≡ weight_of (D.set_of tree.now).pairs key }
{
    if count == 0 {
        return None;
    }
    Some(tree.weight(key, leaf))
}
