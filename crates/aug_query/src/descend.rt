//! The trait below `Tree`: what a descent loads, one piece at a time.
ghost use Rattle.std.specs.Prelude.{◌≡◌, ℕ, ◌+◌, ◌*◌, if◌then◌else◌, length};
ghost use Rattle.aug_model.specs.Keys.{SetFacts, list_of};
ghost use Rattle.aug_model.specs.Folds.{summary_of};
ghost use Rattle.aug_model.specs.Queries.{weight_in};
ghost use Rattle.aug_query.specs.Tree.{IsTreeSet, IsNodeOf, sum_of};
ghost use Rattle.aug_model.specs.NodeKeys.{keys_below};
ghost use Rattle.aug_query.specs.Descend.{Descends, one_more_node, one_more_past, one_more_count, one_more_summary};
ghost use Rattle.aug_query.specs.declared.loaded.Loaded.{Loaded as Loads};

use aug_model::Summary;
use aug_monoid::Monoid;

/// A complete binary tree of a set of keys below `2^bits`, each with a weight, as a query descends it. The node at level `j` and
/// place `p` covers the keys `p * 2^j` to `(p + 1) * 2^j - 1`. A leaf is at level 0, and the top is at level `bits`, place 0.
///
/// The walk keeps the name of the node that it has reached, and counts level and place itself. Each call loads only what it
/// gives, so a rank does not pay for the folds of the nodes on its way. A [`Tree`](crate::Tree), whose nodes are loaded whole, is
/// walked through [`NodeWalk`](crate::NodeWalk).
pub trait Descend<A: Monoid, B: Monoid> {
    /// The name of a node. In a trie it is the word that the parent has of the node.
    type Name: Drop;

    // How many bits the keys have, and the members, rising, each with its weight.
    ghost set_of: { Self → SetFacts };

    // How much was loaded. It takes no bytes.
    ghost loads_of: { Self → Loads };

    // Opaque: the name is that of the node at a level and a place. What that comes to, a law and the calls say.
    ghost Names: { Self → ℕ → ℕ → Self.Name → Type 0 };

    // What a descent keeps of the tree besides its set, from what the tree was to what it has become.
    ghost KeepsRest: { Self → Self → Type 0 };

    /// How many bits the keys have, from 1 to 16.
    fn bits(&self) -> u32
        ensures value { result ≡ (set_of self.now).bits }
        ensures set { IsTreeSet (set_of self.now) };

    /// The node that covers every key.
    fn top(&mut self) -> Self::Name
        ensures descends { Descends set_of loads_of Names KeepsRest 1 0 0 0 self.old self.new }
        ensures notes { loads_of self.new ≡ one_more_node (loads_of self.old) }
        ensures name { Names self.new (set_of self.old).bits 0 result };

    /// The left child, at this level, of the node above it at this place.
    fn left(&mut self, level: u32, place: u32, node: &Self::Name) -> Self::Name
        requires { Names self.old (level + 1) place node.now }
        ensures descends { Descends set_of loads_of Names KeepsRest 1 0 0 0 self.old self.new }
        ensures notes { loads_of self.new ≡ one_more_node (loads_of self.old) }
        ensures name { Names self.new level (2 * place) result };

    /// The right child.
    fn right(&mut self, level: u32, place: u32, node: &Self::Name) -> Self::Name
        requires { Names self.old (level + 1) place node.now }
        ensures descends { Descends set_of loads_of Names KeepsRest 1 0 0 0 self.old self.new }
        ensures notes { loads_of self.new ≡ one_more_node (loads_of self.old) }
        ensures name { Names self.new level (2 * place + 1) result };

    /// The right child, and how many members the left one covers.
    fn past_left(&mut self, level: u32, place: u32, node: &Self::Name) -> (Self::Name, u32)
        requires { Names self.old (level + 1) place node.now }
        ensures descends { Descends set_of loads_of Names KeepsRest 1 0 0 1 self.old self.new }
        ensures notes { loads_of self.new ≡ one_more_past (loads_of self.old) }
        ensures name { Names self.new level (2 * place + 1) result.0 }
        ensures count { result.1 ≡ length (keys_below (list_of (set_of self.old)) level (2 * place)) };

    /// The left child, and how many members the right one covers.
    fn past_right(&mut self, level: u32, place: u32, node: &Self::Name) -> (Self::Name, u32)
        requires { Names self.old (level + 1) place node.now }
        ensures descends { Descends set_of loads_of Names KeepsRest 1 0 0 1 self.old self.new }
        ensures notes { loads_of self.new ≡ one_more_past (loads_of self.old) }
        ensures name { Names self.new level (2 * place) result.0 }
        ensures count { result.1 ≡ length (keys_below (list_of (set_of self.old)) level (2 * place + 1)) };

    /// The child on a side, the right one or the left one, and how many of the node's members come before it. So keys go down that do so
    /// together: a trie loads the same words on either side, and no processor has to guess which it is.
    fn child_past(
        &mut self,
        level: u32,
        place: u32,
        node: &Self::Name,
        right: bool,
    ) -> (Self::Name, u32)
        requires { Names self.old (level + 1) place node.now }
        ensures descends { Descends set_of loads_of Names KeepsRest 1 0 0 1 self.old self.new }
        ensures notes { loads_of self.new ≡ one_more_past (loads_of self.old) }
        ensures name { Names self.new level (if right then 2 * place + 1 else 2 * place) result.0 }
        ensures count { result.1 ≡ (if right then length (keys_below (list_of (set_of self.old)) level (2 * place)) else 0) };

    /// How many members the node covers.
    fn count(&mut self, level: u32, place: u32, node: &Self::Name) -> u32
        requires { Names self.old level place node.now }
        ensures descends { Descends set_of loads_of Names KeepsRest 0 1 0 0 self.old self.new }
        ensures notes { loads_of self.new ≡ one_more_count (loads_of self.old) }
        ensures value { result ≡ length (keys_below (list_of (set_of self.old)) level place) };

    /// The summary of the members that the node covers.
    fn summary(&mut self, level: u32, place: u32, node: &Self::Name) -> Summary<A, B>
        requires { Names self.old level place node.now }
        ensures descends { Descends set_of loads_of Names KeepsRest 0 0 1 0 self.old self.new }
        ensures notes { loads_of self.new ≡ one_more_summary (loads_of self.old) }
        ensures value { result ≡ sum_of (summary_of A.parts B.parts) (set_of self.old).pairs (keys_below (list_of (set_of self.old)) level place) };

    /// The weight of the key that the leaf at this place covers, or 0 if that key is no member.
    fn weight(&self, place: u32, node: &Self::Name) -> u32
        requires { Names self.now 0 place node.now }
        ensures { result ≡ weight_in (set_of self.now).pairs place };

    // A tree that no call has changed keeps it.
    ghost keeps_so: { (tree : Self) → KeepsRest tree tree };

    // What two descents keep, the one after the other, the descent of both keeps.
    ghost keeps_on: { (first tree last : Self) → KeepsRest first tree → KeepsRest tree last → KeepsRest first last };

    // A node that has a name stands within the tree.
    ghost name_stands: { (tree : Self) (level place : ℕ) (name : Self.Name) → Names tree level place name
        → IsNodeOf (summary_of A.parts B.parts) (set_of tree) level place (sum_of (summary_of A.parts B.parts) (set_of tree).pairs (keys_below (list_of (set_of tree)) level place)) };
}
