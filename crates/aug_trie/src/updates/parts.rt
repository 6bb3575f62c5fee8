//! What the node above reads of a child.
ghost use Rattle.std.specs.Prelude.{◌≡◌, ℕ, ◌<◌, ◌≤◌, ◌^◌, []};
ghost use Rattle.aug_core.specs.Faces.{face};
ghost use Rattle.aug_core.specs.Addresses.{place_count, IsInner};
ghost use Rattle.aug_core.specs.Effects.{GuardsRecord, KnowsBook};
ghost use Rattle.aug_trie.specs.inside.LeafPairs.{leaf_pairs};
ghost use Rattle.aug_trie.specs.inside.Goes.{IsPart, IsPartOf, Goes, Looks, Took, KnowsLeaves, part_words, part_steps};

use crate::updates::leaf_words::{leaf_serial, leaf_weight};
use aug_core::RecordField;
use aug_monoid::Monoid;
use aug_words::WordPass;

// How many words of a record tell what is below its node: a count and two folds.
pub(crate) const PART_WORDS: usize = 3;

// How many keys there are below a child, and the folds of these with their weights.
#[derive(Clone, Copy)]
pub(crate) struct Part<A, B> {
    pub(crate) count: u64,
    pub(crate) a: A,
    pub(crate) b: B,
}

// What is read of a leaf with this word.
#[inline(always)]
pub(crate) fn leaf_part<A: Monoid, B: Monoid>(leaf: usize, word: u64) -> Part<A, B>
    requires { leaf < 2 ^ 32 }
    ensures { IsPart A.parts B.parts result.count result.a result.b (leaf_pairs leaf word) }
{
    if leaf_serial(word) % 2 == 1 {
        let weight = leaf_weight(word);
        Part {
            count: 1,
            a: A::of_key(leaf as u32, weight),
            b: B::of_key(leaf as u32, weight),
        }
    } else {
        Part {
            count: 0,
            a: A::unit(),
            b: B::unit(),
        }
    }
}

// What these words of a record say.
#[inline(always)]
pub(crate) fn part_of_words<A: Monoid, B: Monoid>(count: u64, a: u64, b: u64) -> Part<A, B>
    ensures count { result.count ≡ count }
    ensures a { result.a ≡ A.parts.from_word a }
    ensures b { result.b ≡ B.parts.from_word b }
{
    Part {
        count,
        a: A::from_word(a),
        b: B::from_word(b),
    }
}

// What is read of a record that the pass guards: three steps.
#[inline(always)]
fn record_part<A: Monoid, B: Monoid>(pass: &mut WordPass<A, B>, number: u64) -> Part<A, B>
    requires few { 2 ^ pass.old.view.shape.bits ≤ 65536 }
    requires knows { KnowsBook (face A.parts B.parts) pass.old.view }
    requires guards { GuardsRecord pass.old.view number }
    ensures table { pass.new.table ≡ pass.old.table }
    ensures goes { Goes (face A.parts B.parts) 0 [] pass.old.view pass.new.view }
    ensures looks { Looks part_words pass.old.view pass.new.view }
    ensures took { Took pass.old.view pass.new.view part_words }
    ensures part { (node word : ℕ) → IsInner pass.old.view.shape node → IsPartOf A.parts B.parts pass.old.view node word number result.count result.a result.b }
{
    let count = pass.load_record_word(number, RecordField::Count);
    let a = pass.load_record_word(number, RecordField::A);
    let b = pass.load_record_word(number, RecordField::B);
    part_of_words(count, a, b)
}

// What is read of the leaf or node at a place whose loaded word is `word`; a node's names the record `number`.
#[inline(always)]
pub(crate) fn any_part<A: Monoid, B: Monoid>(
    pass: &mut WordPass<A, B>,
    leaves: usize,
    place: usize,
    word: u64,
    number: u64,
) -> Part<A, B>
    requires over { KnowsLeaves (face A.parts B.parts) pass.old.view leaves }
    requires place { place < place_count pass.old.view.shape }
    requires guards { IsInner pass.old.view.shape place → GuardsRecord pass.old.view number }
    ensures table { pass.new.table ≡ pass.old.table }
    ensures goes { Goes (face A.parts B.parts) 0 [] pass.old.view pass.new.view }
    ensures looks { Looks part_words pass.old.view pass.new.view }
    ensures took { Took pass.old.view pass.new.view (part_steps pass.old.view.shape place) }
    ensures part { IsPartOf A.parts B.parts pass.old.view place word number result.count result.a result.b }
{
    if place < leaves {
        leaf_part(place, word)
    } else {
        record_part(pass, number)
    }
}
