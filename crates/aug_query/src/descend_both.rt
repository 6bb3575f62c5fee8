//! The trait of two trees that a comparison descends at once.
ghost use Rattle.std.specs.Prelude.{◌≡◌, ℕ, ◌+◌, ◌*◌};
ghost use Rattle.aug_model.specs.Queries.{weight_of};
ghost use Rattle.aug_query.specs.DescendBoth.{BothSets, AreBoth, StandInBoth, DescendsBoth};

/// Two complete binary trees of sets of keys below `2^bits`, each with a weight: an earlier and a later one. Level and place are those of a
/// node of either, as in [`Descend`](crate::Descend). The trees may share nodes: where both have the same one, nothing below it changed, and nothing
/// there has to be loaded.
pub trait DescendBoth {
    /// The name of the nodes of both trees at a level and a place.
    type Name: Drop;

    // Both sets, and which nodes are seen to be the same.
    ghost both_of: { Self → BothSets };

    // How often a child was loaded, of both trees. It takes no bytes.
    ghost loads_of: { Self → ℕ };

    // Opaque: the name is that of the nodes at a level and a place. A law and the calls say what follows from it.
    ghost Names: { Self → ℕ → ℕ → Self.Name → Type 0 };

    // What a descent keeps of the trees besides their sets, from what they were to what they have become.
    ghost KeepsRest: { Self → Self → Type 0 };

    /// How many bits the keys have, from 1 to 16.
    fn bits(&self) -> u32
        ensures value { result ≡ (both_of self.now).earlier.bits }
        ensures sets { AreBoth (both_of self.now) };

    /// The nodes that cover every key. Nothing is loaded.
    fn tops(&self) -> Self::Name
        ensures { Names self.now (both_of self.now).earlier.bits 0 result };

    /// The left children, at this level, of the nodes above them at this place.
    fn lefts(&mut self, level: u32, place: u32, nodes: &Self::Name) -> Self::Name
        requires { Names self.old (level + 1) place nodes.now }
        ensures descends { DescendsBoth both_of loads_of Names KeepsRest 1 self.old self.new }
        ensures notes { loads_of self.new ≡ loads_of self.old + 1 }
        ensures name { Names self.new level (2 * place) result };

    /// The right children.
    fn rights(&mut self, level: u32, place: u32, nodes: &Self::Name) -> Self::Name
        requires { Names self.old (level + 1) place nodes.now }
        ensures descends { DescendsBoth both_of loads_of Names KeepsRest 1 self.old self.new }
        ensures notes { loads_of self.new ≡ loads_of self.old + 1 }
        ensures name { Names self.new level (2 * place + 1) result };

    /// Whether both nodes are seen to be the same.
    fn same(&self, level: u32, place: u32, nodes: &Self::Name) -> bool
        requires { Names self.now level place nodes.now }
        ensures { result ≡ (both_of self.now).same level place };

    /// The weights in the earlier and in the later set of the key whose leaves are at this place, `None` where it is no member.
    fn weights(&self, place: u32, nodes: &Self::Name) -> (Option<u32>, Option<u32>)
        requires { Names self.now 0 place nodes.now }
        ensures earlier { result.0 ≡ weight_of (both_of self.now).earlier.pairs place }
        ensures later { result.1 ≡ weight_of (both_of self.now).later.pairs place };

    // Trees that no call has changed keep it.
    ghost keeps_so: { (trees : Self) → KeepsRest trees trees };

    // What two descents keep, the one after the other, the descent of both keeps.
    ghost keeps_on: { (first trees last : Self) → KeepsRest first trees → KeepsRest trees last → KeepsRest first last };

    // Nodes that have a name stand within the trees.
    ghost name_stands: { (trees : Self) (level place : ℕ) (name : Self.Name) → Names trees level place name → StandInBoth (both_of trees) level place };
}
