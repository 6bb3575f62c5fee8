//! An update as a whole, one atomic step at a time.
ghost use Rattle.std.specs.Prelude.{◌≡◌, ℕ, ◌+◌, ◌^◌, ◌<◌, [], ◌∷◌, ◌++◌};
ghost use Rattle.aug_core.specs.Faces.{face};
ghost use Rattle.aug_core.specs.Kinds.{load_leaf, try_leaf};
ghost use Rattle.aug_core.specs.declared.view.SeatView.{SeatView};
ghost use Rattle.aug_words.specs.Seats.{StaysAt};
ghost use Rattle.aug_trie.specs.inside.Points.{OneStep};
ghost use Rattle.aug_trie.specs.Requests.{word_after as word_of_request};
ghost use Rattle.aug_trie.specs.inside.Stages.{StageAt, Climbs, StageFalls};

use crate::turns::ascents::{Ascent, ascend};
use crate::updates::request::Request;
use crate::updates::update::{at_once, goes_on, outcome_of, word_after};
use aug_model::Outcome;
use aug_monoid::Monoid;
use aug_words::WordPass;

// What an update does next.
#[derive(Clone, Copy)]
pub(crate) enum Stage {
    // It loads its leaf.
    Leaf,
    // It exchanges the leaf's word, which was this one.
    Change(u64),
    // It is on its way from the leaf to the root, and will have come to this.
    Up(Outcome, Ascent),
}

// What a step of an update came to.
#[derive(Clone, Copy)]
pub(crate) enum Next {
    // There is more to do.
    More(Stage),
    // All is done, and came to this.
    Done(Outcome),
}

// The next step of an update of a key.
pub(crate) fn next_stage<A: Monoid, B: Monoid>(
    pass: &mut WordPass<A, B>,
    leaves: usize,
    bits: u32,
    number: u64,
    key: u32,
    request: Request,
    stage: Stage,
) -> Next
    requires at { (left : ℕ) × (u : SeatView) × StageAt (face A.parts B.parts) leaves bits number left key request u stage pass.old.view }
    ensures step { StaysAt pass.old pass.new (OneStep pass.old.view pass.new.view) }
    ensures on { (left : ℕ) (u : SeatView) → StageAt (face A.parts B.parts) leaves bits number left key request u stage pass.old.view → Climbs (face A.parts B.parts) leaves bits number left key request u result pass.new.view }
    ensures falls { StageFalls bits stage result }
    ensures first { stage ≡ Stage.Leaf → (found : ℕ) × (pass.new.view.steps ≡ pass.old.view.steps ++ load_leaf key found ∷ []) }
    ensures second { (word : ℕ) → stage ≡ Stage.Change word → (found : ℕ) × (pass.new.view.steps ≡ pass.old.view.steps ++ try_leaf key word (word_of_request request key word) found ∷ []) }
{
    let leaf = key as usize;
    match stage {
        Stage::Leaf => {
            let word = pass.begin_at_leaf(leaf);
            if goes_on(request, word) {
                Next::More(Stage::Change(word))
            } else {
                Next::More(Stage::Up(at_once(request), Ascent::from_leaf(leaves, leaf)))
            }
        }
        Stage::Change(word) => {
            let done = pass.try_leaf(leaf, word, word_after(request, key, word));
            let outcome = outcome_of(request, word, done);
            Next::More(Stage::Up(outcome, Ascent::from_leaf(leaves, leaf)))
        }
        Stage::Up(outcome, ascent) => match ascend(pass, leaves, bits, number, ascent) {
            Some(ascent) => Next::More(Stage::Up(outcome, ascent)),
            None => Next::Done(outcome),
        },
    }
}
