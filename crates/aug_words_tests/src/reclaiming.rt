//! A table that uses records again: its era and its reservations, as the passes find them.
ghost use Rattle.std.specs.Prelude.{◌≡◌, ◌<◌, ◌≤◌, ◌^◌, ℕ, IfOk, Some};
ghost use Rattle.aug_core.specs.Places.{with_reservations};
ghost use Rattle.aug_words.specs.Seats.{AreTogether};

use super::tables::{WordsOf, next_pass};
use crate::assertions::equal;
use aug_core::Layout;
use aug_monoid::{Extent, Sum};
use aug_words::{Lead, WordPass, Words};
use std::alloc::{AllocError, Global};

type PassOf<'r> = WordPass<'r, Sum, Extent>;

// A table of 1 bit and two lanes, each with a reservation and the records for one update, which opens empty.
fn opened(alloc: Global) -> Result<(WordsOf, Lead<Sum, Extent>), AllocError>
    ensures together { IfOk result (λ t. AreTogether t.0 t.1) }
    ensures shape { IfOk result (λ t. t.0.shape ≡ with_reservations 1 2 1 2 2) }
    ensures spare { IfOk result (λ t. t.1.view.spare ≡ Some 0) }
{
    let Ok(layout) = Layout::reclaiming(1, 2, 1) else {
        return Err(AllocError);
    };
    Words::open(alloc, &layout, 2, &[])
}

// The era, which a pass loads.
fn era(pass: &mut PassOf, words: &WordsOf) -> u64
    requires together { AreTogether words.now pass.old }
    requires shape { words.now.shape ≡ with_reservations 1 2 1 2 2 }
    ensures together { AreTogether words.now pass.new }
    ensures reached { result ≤ pass.new.view.reached }
{
    pass.load_era(words)
}

// A pass moves the era on from this one.
fn turns(pass: &mut PassOf, words: &WordsOf, era: u64) -> bool
    requires together { AreTogether words.now pass.old }
    requires shape { words.now.shape ≡ with_reservations 1 2 1 2 2 }
    requires era { era < 2 ^ 40 }
    ensures together { AreTogether words.now pass.new }
{
    pass.turn_era(words, era)
}

// A pass loads the era and reserves it.
fn reserves(pass: &mut PassOf, words: &WordsOf) -> u64
    requires together { AreTogether words.now pass.old }
    requires shape { words.now.shape ≡ with_reservations 1 2 1 2 2 }
    ensures together { AreTogether words.now pass.new }
{
    let found = era(pass, words);
    if found > 0 {
        pass.reserve_era(words, found);
    }
    found
}

// A pass lets go of what it reserved.
fn releases(pass: &mut PassOf, words: &WordsOf)
    requires together { AreTogether words.now pass.old }
    requires shape { words.now.shape ≡ with_reservations 1 2 1 2 2 }
    ensures together { AreTogether words.now pass.new }
{
    pass.release_era(words);
}

// What a pass finds reserved for the two lanes.
fn reserved(pass: &mut PassOf, words: &WordsOf) -> [u64; 2]
    requires together { AreTogether words.now pass.old }
    requires shape { words.now.shape ≡ with_reservations 1 2 1 2 2 }
    ensures together { AreTogether words.now pass.new }
{
    [found(pass, words, 0), found(pass, words, 1)]
}

fn found(pass: &mut PassOf, words: &WordsOf, lane: u32) -> u64
    requires together { AreTogether words.now pass.old }
    requires shape { words.now.shape ≡ with_reservations 1 2 1 2 2 }
    requires lane { lane < 2 }
    ensures together { AreTogether words.now pass.new }
{
    pass.pass_reservation(words, lane)
}

// The eras that two passes found and reserved, whether they turned the era, and what they found reserved.
type Played = ([u64; 3], [bool; 3], [[u64; 2]; 3]);

// Two passes turn the era. Then the second reserves the one that it finds, and so does the first; and the second lets go.
fn play(alloc: Global) -> Result<Played, AllocError> {
    let (words, mut lead) = opened(alloc)?;
    let mut first = next_pass(&mut lead, &words, 0, 2);
    let mut second = next_pass(&mut lead, &words, 1, 3);
    let began = era(&mut first, &words);
    let turned = [
        turns(&mut first, &words, 0),
        turns(&mut second, &words, 0),
        turns(&mut second, &words, 1),
    ];
    let of_second = reserves(&mut second, &words);
    let one = reserved(&mut first, &words);
    let of_first = reserves(&mut first, &words);
    let both = reserved(&mut second, &words);
    releases(&mut second, &words);
    let other = reserved(&mut first, &words);
    Ok(([began, of_second, of_first], turned, [one, both, other]))
}

#[test]
fn an_era_is_turned_once_and_reserved_for_its_lane(rt: HostRuntime) -> Result<(), AllocError> {
    let (eras, turned, reserved) = play(rt.alloc())?;
    equal(&rt, eras, [0, 2, 2]);
    equal(&rt, turned, [true, false, true]);
    equal(&rt, reserved, [[0, 2], [2, 2], [2, 0]]);
    Ok(())
}
