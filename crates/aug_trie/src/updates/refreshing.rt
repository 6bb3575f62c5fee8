//! One try to bring a node up to its children.
ghost use Rattle.std.specs.Prelude.{◌≡◌, ℕ, ◌+◌, ◌^◌, ◌<◌, [], ◌∷◌, slice_index, false};
ghost use Rattle.aug_core.specs.Places.{record_words};
ghost use Rattle.aug_core.specs.Faces.{face};
ghost use Rattle.aug_core.specs.Addresses.{place_count, IsInner};
ghost use Rattle.aug_core.specs.Effects.{MayStore, KnowsBook};
ghost use Rattle.aug_core.specs.inside.Refreshes.{HasNewest, SaysLoaded, Published, stored};
ghost use Rattle.aug_words.specs.Seats.{StaysAt};
ghost use Rattle.aug_trie.specs.inside.Goes.{Goes, Took, HasRoom, KnowsLeaves, publish_steps};
ghost use Rattle.aug_trie.specs.inside.Points.{QuietStep, MayRefresh, TryOver};

use crate::updates::parts::{Part, any_part};
use aug_core::{RECORD_WORDS, RecordField};
use aug_monoid::Monoid;
use aug_words::WordPass;

// Loads the word of a leaf or a node: one step.
#[inline(always)]
pub(crate) fn look<A: Monoid, B: Monoid>(
    pass: &mut WordPass<A, B>,
    leaves: usize,
    place: usize,
) -> u64
    requires over { KnowsLeaves (face A.parts B.parts) pass.old.view leaves }
    requires place { place < place_count pass.old.view.shape }
    ensures step { StaysAt pass.old pass.new (QuietStep pass.old.view pass.new.view) }
    ensures goes { Goes (face A.parts B.parts) 0 [] pass.old.view pass.new.view }
    ensures took { Took pass.old.view pass.new.view 1 }
    ensures newest { HasNewest pass.new.view.seen place result }
{
    if place < leaves {
        pass.load_leaf(place)
    } else {
        pass.load_node(place)
    }
}

// The words of a record over two children with these words and these parts.
#[inline(always)]
pub(crate) fn five_words<A: Monoid, B: Monoid>(
    left: u64,
    right: u64,
    l: Part<A, B>,
    r: Part<A, B>,
) -> [u64; RECORD_WORDS]
    requires few { l.count + r.count < 2 ^ 64 }
    ensures { result ≡ left ∷ right ∷ (l.count + r.count) ∷ A.parts.to_word (A.parts.join l.a r.a) ∷ B.parts.to_word (B.parts.join l.b r.b) ∷ [] }
{
    let count = l.count + r.count;
    let a = l.a.join(r.a).to_word();
    let b = l.b.join(r.b).to_word();
    [left, right, count, a, b]
}

// How many steps it takes to fill a record and to try to publish it.
pub(crate) const PUBLISH_STEPS: u32 = RECORD_WORDS as u32 + 1;

// Stores the five words of an own record: five steps.
#[inline(always)]
pub(crate) fn fill<A: Monoid, B: Monoid>(
    pass: &mut WordPass<A, B>,
    number: u64,
    five: [u64; RECORD_WORDS],
)
    requires { MayStore pass.old.view number }
    ensures { StaysAt pass.old pass.new (pass.new.view ≡ stored pass.old.view number five record_words) }
{
    pass.store_record_word(number, RecordField::Left, five[0]);
    pass.store_record_word(number, RecordField::Right, five[1]);
    pass.store_record_word(number, RecordField::Count, five[2]);
    pass.store_record_word(number, RecordField::A, five[3]);
    pass.store_record_word(number, RecordField::B, five[4]);
}

// Fills an own record and tries to publish it: six steps.
#[inline(always)]
fn publish<A: Monoid, B: Monoid>(
    pass: &mut WordPass<A, B>,
    node: usize,
    from: u64,
    number: u64,
    five: [u64; RECORD_WORDS],
) -> bool
    requires inner { IsInner pass.old.view.shape node }
    requires knows { KnowsBook (face A.parts B.parts) pass.old.view }
    requires room { HasRoom pass.old.view number 1 }
    requires loaded { SaysLoaded (face A.parts B.parts) pass.old.view.shape pass.old.view.seen node from five }
    ensures table { pass.new.table ≡ pass.old.table }
    ensures goes { Goes (face A.parts B.parts) (number + 1) [] pass.old.view pass.new.view }
    ensures took { Took pass.old.view pass.new.view publish_steps }
    ensures published { Published pass.old.view.shape node from (slice_index five 0) (slice_index five 1) result pass.new.view.seen }
    ensures again { result ≡ false → MayStore pass.new.view number }
{
    fill(pass, number, five);
    pass.try_node(node, from, number)
}

// One try at a node: 9 steps if its children are leaves, otherwise 15. True if the record was published.
#[inline(always)]
pub(crate) fn refresh<A: Monoid, B: Monoid>(
    pass: &mut WordPass<A, B>,
    leaves: usize,
    node: usize,
    number: u64,
) -> bool
    requires { MayRefresh (face A.parts B.parts) pass.old.view node leaves number }
    ensures { StaysAt pass.old pass.new (TryOver (face A.parts B.parts) pass.old.view node number result pass.new.view) }
{
    let from = look(pass, leaves, node);
    let child = 2 * (node - leaves);
    let left = look(pass, leaves, child);
    let right = look(pass, leaves, child + 1);
    let l = any_part(pass, leaves, child, left, left);
    let r = any_part(pass, leaves, child + 1, right, right);
    publish(pass, node, from, number, five_words(left, right, l, r))
}
