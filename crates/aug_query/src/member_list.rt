//! The trait of a list of members that somebody keeps.
ghost use Rattle.std.specs.Prelude.{◌≡◌, ◌<◌, ◌+◌, length, get_or};
ghost use Rattle.std.specs.List.Sorted.{IsStrictlyIncreasing};
ghost use Rattle.aug_model.specs.Keys.{SetFacts, list_of};
ghost use Rattle.aug_model.specs.Queries.{weight_of};
ghost use Rattle.aug_model.specs.inside.Boundary.{IsBoundary};

/// A set as a list of its members, rising, each with its weight, which somebody keeps beside a tree: what an earlier snapshot had.
pub trait MemberList {
    // How many bits the keys have, and the members, rising, each with its weight.
    ghost set_of: { Self → SetFacts };

    /// How many members it has. They rise.
    fn len(&self) -> usize
        ensures value { result ≡ length (set_of self.now).pairs }
        ensures rising { IsStrictlyIncreasing (list_of (set_of self.now)) };

    /// The member with so many below it, and its weight.
    fn member(&self, place: usize) -> (u32, u32)
        requires { place < length (set_of self.now).pairs }
        ensures { result ≡ get_or (set_of self.now).pairs place (0, 0) };
}

// The place of the first member that is not below a key.
pub(crate) fn place_from<L: MemberList>(list: &L, key: u32) -> usize
    ensures place { IsBoundary (list_of (L.set_of list.now)) key result }
    ensures rising { IsStrictlyIncreasing (list_of (L.set_of list.now)) }
{
    let mut place = 0;
    let mut end = list.len();
    while place < end {
        let middle = place + (end - place) / 2;
        if list.member(middle).0 < key {
            place = middle + 1;
        } else {
            end = middle;
        }
    }
    place
}

// What a key weighs, by the place of the first member that is not below it, which moves behind the key.
pub(crate) fn weight_at<L: MemberList>(list: &L, key: u32, place: &mut usize) -> Option<u32>
    requires { IsBoundary (list_of (L.set_of list.now)) key place.old }
    ensures weight { result ≡ weight_of (L.set_of list.now).pairs key }
    ensures place { IsBoundary (list_of (L.set_of list.now)) (key + 1) place.new }
{
    if *place >= list.len() {
        return None;
    }
    let (next, weight) = list.member(*place);
    if next != key {
        return None;
    }
    *place += 1;
    Some(weight)
}
