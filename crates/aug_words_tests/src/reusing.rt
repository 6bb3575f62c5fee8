//! Records that are used again: passes publish some thousand times with a few records each, in a table of 1 bit in which both keys are. What a record says that a
//! pass may read is the same each time, and what it may write it spoils before it fills it.
ghost use Rattle.std.specs.Prelude.{◌≡◌, ◌<◌, ◌≤◌, ◌+◌, ◌-◌, ℕ, Some, IfOk, IfSome, true, false, slice_index};
ghost use Rattle.aug_core.specs.Faces.{face};
ghost use Rattle.aug_core.specs.Effects.{IsFilled};
ghost use Rattle.aug_core.specs.Records.{first_era};
ghost use Rattle.aug_words.specs.Seats.{AreTogether};
ghost use Rattle.aug_words.specs.Stocks.{Stocks, number_in_word};
ghost use Rattle.aug_words_tests.specs.Reuse.{IsSmall};

use super::steps::{NODE, fill, words_over};
use super::tables::WordsOf;
use crate::assertions::{equal, holds};
use aug_core::{Layout, RecordField};
use aug_monoid::{Extent, Monoid, Sum};
use aug_words::{Lead, Stock, WordHalf, WordPass, Words};
use std::alloc::{AllocError, Global};
use std::sync::Wait;
use std::thread;
use std::thread::Threads;

// A word that no record has.
const SPOILT: u64 = 99;

// What a try to publish came to. `Late` is one whose node had a record of a later era than the one that was reserved, and `Torn` one that read what no record has.
#[derive(Clone, Copy)]
enum Turn {
    Published,
    Lost,
    Late,
    Full,
    Torn,
}

// How many turns came to each.
#[derive(Clone, Copy, Debug, PartialEq, Eq)]
struct Turns {
    published: u32,
    lost: u32,
    late: u32,
    full: u32,
    torn: u32,
}

// How many keys the node's record counts.
fn look<A: Monoid, B: Monoid>(
    pass: &mut WordPass<'_, A, B>,
    stock: &mut Stock,
    words: &Words<A, B>,
) -> u64
    requires together { AreTogether words.now pass.old }
    requires small { IsSmall words.now.shape }
    requires stocks { Stocks pass.old.view stock.old }
    requires reserved { 0 < stock.old.era }
    ensures together { AreTogether words.now pass.new }
    ensures stocks { Stocks pass.new.view stock.new }
    ensures same { stock.new ≡ record stock.old { era = stock.new.era } }
    ensures reserved { 0 < stock.new.era }
{
    let from = stock.load_held(pass, words, NODE);
    pass.load_record_word(from % (1 << 24), RecordField::Count)
}

// Fills the next record from the node's two leaves, and answers the node's word.
fn refill<A: Monoid, B: Monoid>(
    pass: &mut WordPass<'_, A, B>,
    stock: &mut Stock,
    words: &Words<A, B>,
) -> u64
    requires together { AreTogether words.now pass.old }
    requires small { IsSmall words.now.shape }
    requires stocks { Stocks pass.old.view stock.old }
    requires some { 0 < stock.old.free }
    requires reserved { 0 < stock.old.era }
    ensures together { AreTogether words.now pass.new }
    ensures stocks { Stocks pass.new.view stock.new }
    ensures same { stock.new ≡ record stock.old { era = stock.new.era } }
    ensures filled { IsFilled (face A.parts B.parts) pass.new.view 2 result (first_era stock.new.era) (number_in_word (slice_index stock.new.words (stock.new.free - 1))) }
{
    let (from, left, right) = stock.load_over(pass, words, 2, NODE);
    fill(pass, stock.next(), words_over::<A, B>(left, right));
    from
}

// Publishes it, and retires what it replaced.
fn publish<A: Monoid, B: Monoid>(
    pass: &mut WordPass<'_, A, B>,
    stock: &mut Stock,
    words: &Words<A, B>,
    from: u64,
) -> bool
    requires together { AreTogether words.now pass.old }
    requires small { IsSmall words.now.shape }
    requires stocks { Stocks pass.old.view stock.old }
    requires some { 0 < stock.old.free }
    requires none { stock.old.replaced ≡ 0 }
    requires filled { IsFilled (face A.parts B.parts) pass.old.view 2 from (first_era stock.old.era) (number_in_word (slice_index stock.old.words (stock.old.free - 1))) }
    ensures together { AreTogether words.now pass.new }
    ensures stocks { Stocks pass.new.view stock.new }
    ensures none { stock.new.replaced ≡ 0 }
{
    let birth = stock.birth_over(0, 0);
    if !stock.try_node(pass, NODE, from, birth) {
        return false;
    }
    stock.retire(pass, words);
    true
}

// Spoils the next record.
fn spoil<A: Monoid, B: Monoid>(pass: &mut WordPass<'_, A, B>, stock: &Stock)
    requires stocks { Stocks pass.old.view stock.now }
    requires some { 0 < stock.now.free }
    ensures same { (pass.new.table ≡ pass.old.table) × (pass.new.view.shape ≡ pass.old.view.shape) }
    ensures stocks { Stocks pass.new.view stock.now }
{
    fill(pass, stock.next(), [SPOILT; 5]);
}

// A try with an era reserved.
fn try_once<A: Monoid, B: Monoid>(
    pass: &mut WordPass<'_, A, B>,
    stock: &mut Stock,
    words: &Words<A, B>,
) -> Turn
    requires together { AreTogether words.now pass.old }
    requires small { IsSmall words.now.shape }
    requires stocks { Stocks pass.old.view stock.old }
    requires some { 0 < stock.old.free }
    requires none { stock.old.replaced ≡ 0 }
    requires reserved { 0 < stock.old.era }
    ensures together { AreTogether words.now pass.new }
    ensures stocks { Stocks pass.new.view stock.new }
    ensures none { stock.new.replaced ≡ 0 }
{
    if look(pass, stock, words) != 2 {
        return Turn::Torn;
    }
    let from = refill(pass, stock, words);
    if publish(pass, stock, words, from) {
        Turn::Published
    } else {
        Turn::Lost
    }
}

// Reserves the era, or that and all later ones. False if there is none left.
fn reserve<A: Monoid, B: Monoid>(
    pass: &mut WordPass<'_, A, B>,
    stock: &mut Stock,
    words: &Words<A, B>,
    later: bool,
) -> bool
    requires together { AreTogether words.now pass.old }
    requires small { IsSmall words.now.shape }
    requires stocks { Stocks pass.old.view stock.old }
    ensures together { AreTogether words.now pass.new }
    ensures stocks { Stocks pass.new.view stock.new }
    ensures same { stock.new ≡ record stock.old { era = stock.new.era } }
    ensures reserved { result ≡ true → 0 < stock.new.era }
{
    if later {
        stock.reserve_later(pass, words);
        return true;
    }
    stock.reserve(pass, words)
}

// A turn: the next record is spoilt, an era is reserved, if that is asked with all later ones, and a try is made.
fn take_turn<A: Monoid, B: Monoid>(
    pass: &mut WordPass<'_, A, B>,
    stock: &mut Stock,
    words: &Words<A, B>,
    later: bool,
) -> Turn
    requires together { AreTogether words.now pass.old }
    requires small { IsSmall words.now.shape }
    requires stocks { Stocks pass.old.view stock.old }
    requires none { stock.old.replaced ≡ 0 }
    ensures together { AreTogether words.now pass.new }
    ensures stocks { Stocks pass.new.view stock.new }
    ensures none { stock.new.replaced ≡ 0 }
{
    if stock.free() == 0 {
        stock.scan(pass, words);
    }
    if stock.free() == 0 {
        return Turn::Full;
    }
    spoil(pass, stock);
    if !reserve(pass, stock, words, later) {
        return Turn::Late;
    }
    let done = try_once(pass, stock, words);
    stock.release(pass, words);
    done
}

// The era goes on to the next.
fn move_on<A: Monoid, B: Monoid>(pass: &mut WordPass<'_, A, B>, stock: &Stock, words: &Words<A, B>)
    requires together { AreTogether words.now pass.old }
    requires small { IsSmall words.now.shape }
    requires stocks { Stocks pass.old.view stock.now }
    ensures together { AreTogether words.now pass.new }
    ensures stocks { Stocks pass.new.view stock.now }
{
    let era = pass.load_era(words);
    if era < 1 << 40 {
        pass.turn_era(words, era);
    }
}

// So many turns. The era goes on after each that published, if that is asked.
fn take_turns<A: Monoid, B: Monoid>(
    pass: &mut WordPass<'_, A, B>,
    stock: &mut Stock,
    words: &Words<A, B>,
    times: u32,
    moves: bool,
    later: bool,
) -> Turns
    requires together { AreTogether words.now pass.old }
    requires small { IsSmall words.now.shape }
    requires stocks { Stocks pass.old.view stock.old }
    requires none { stock.old.replaced ≡ 0 }
    ensures together { AreTogether words.now pass.new }
    ensures stocks { Stocks pass.new.view stock.new }
    ensures none { stock.new.replaced ≡ 0 }
{
    let mut made = Turns {
        published: 0,
        lost: 0,
        late: 0,
        full: 0,
        torn: 0,
    };
    for _ in 0..times {
        match take_turn(pass, stock, words, later) {
            Turn::Published => {
                made.published = made.published.saturating_add(1);
                if moves {
                    move_on(pass, stock, words);
                }
            }
            Turn::Lost => made.lost = made.lost.saturating_add(1),
            Turn::Late => made.late = made.late.saturating_add(1),
            Turn::Full => made.full = made.full.saturating_add(1),
            Turn::Torn => made.torn = made.torn.saturating_add(1),
        }
    }
    made
}

// How many of 100 turns of another pass publish, if it is their moment, while this one stands still.
fn beside<A: Monoid, B: Monoid>(
    other: &mut WordPass<'_, A, B>,
    theirs: &mut Stock,
    words: &Words<A, B>,
    now: bool,
) -> u32
    requires together { AreTogether words.now other.old }
    requires small { IsSmall words.now.shape }
    requires stocks { Stocks other.old.view theirs.old }
    requires none { theirs.old.replaced ≡ 0 }
    ensures together { AreTogether words.now other.new }
    ensures stocks { Stocks other.new.view theirs.new }
    ensures none { theirs.new.replaced ≡ 0 }
{
    if !now {
        return 0;
    }
    take_turns(other, theirs, words, 100, true, false).published
}

// As `look`, with the turns of another pass between its steps, and how many of these published.
fn look_slowly<A: Monoid, B: Monoid>(
    pass: &mut WordPass<'_, A, B>,
    stock: &Stock,
    other: &mut WordPass<'_, A, B>,
    theirs: &mut Stock,
    words: &Words<A, B>,
    at: u32,
) -> (Option<u64>, u32)
    requires small { IsSmall pass.old.view.shape × IsSmall words.now.shape }
    requires stocks { Stocks pass.old.view stock.now }
    requires reserved { 0 < stock.now.era }
    requires other { AreTogether words.now other.old × Stocks other.old.view theirs.old × (theirs.old.replaced ≡ 0) }
    ensures same { (pass.new.table ≡ pass.old.table) × (pass.new.view.shape ≡ pass.old.view.shape) × (pass.new.view.reserved ≡ pass.old.view.reserved) }
    ensures stocks { Stocks pass.new.view stock.now }
    ensures other { AreTogether words.now other.new × Stocks other.new.view theirs.new × (theirs.new.replaced ≡ 0) }
{
    let from = pass.load_node(NODE);
    let made = beside(other, theirs, words, at == 2);
    if !stock.covers(from) {
        return (None, made);
    }
    let count = pass.load_record_word(from % (1 << 24), RecordField::Count);
    (Some(count), made)
}

// As `refill`, with the turns of another pass after one of its steps.
fn refill_slowly<A: Monoid, B: Monoid>(
    pass: &mut WordPass<'_, A, B>,
    stock: &Stock,
    other: &mut WordPass<'_, A, B>,
    theirs: &mut Stock,
    words: &Words<A, B>,
    at: u32,
) -> (Option<u64>, u32)
    requires small { IsSmall pass.old.view.shape × IsSmall words.now.shape }
    requires stocks { Stocks pass.old.view stock.now }
    requires some { 0 < stock.now.free }
    requires reserved { 0 < stock.now.era }
    requires other { AreTogether words.now other.old × Stocks other.old.view theirs.old × (theirs.old.replaced ≡ 0) }
    ensures same { (pass.new.table ≡ pass.old.table) × (pass.new.view.shape ≡ pass.old.view.shape) }
    ensures stocks { Stocks pass.new.view stock.now }
    ensures filled { IfSome result.0 (λ from. IsFilled (face A.parts B.parts) pass.new.view 2 from (first_era stock.now.era) (number_in_word (slice_index stock.now.words (stock.now.free - 1)))) }
    ensures other { AreTogether words.now other.new × Stocks other.new.view theirs.new × (theirs.new.replaced ≡ 0) }
{
    let from = pass.load_node(NODE);
    let first = beside(other, theirs, words, at == 4);
    if !stock.covers(from) {
        return (None, first);
    }
    let left = pass.load_leaf(0);
    let second = beside(other, theirs, words, at == 5);
    let right = pass.load_leaf(1);
    let third = beside(other, theirs, words, at == 6);
    fill(pass, stock.next(), words_over::<A, B>(left, right));
    let made = first.saturating_add(second).saturating_add(third);
    (Some(from), made)
}

// As `try_once`, with the turns of another pass between its calls, at 11 before the first two, and how many of these published.
fn try_anew<A: Monoid, B: Monoid>(
    pass: &mut WordPass<'_, A, B>,
    stock: &mut Stock,
    other: &mut WordPass<'_, A, B>,
    theirs: &mut Stock,
    words: &Words<A, B>,
    at: u32,
) -> (Turn, u32)
    requires together { AreTogether words.now pass.old × IsSmall words.now.shape }
    requires stocks { Stocks pass.old.view stock.old }
    requires some { 0 < stock.old.free }
    requires none { stock.old.replaced ≡ 0 }
    requires reserved { 0 < stock.old.era }
    requires other { AreTogether words.now other.old × Stocks other.old.view theirs.old × (theirs.old.replaced ≡ 0) }
    ensures together { AreTogether words.now pass.new }
    ensures stocks { Stocks pass.new.view stock.new }
    ensures none { stock.new.replaced ≡ 0 }
    ensures other { AreTogether words.now other.new × Stocks other.new.view theirs.new × (theirs.new.replaced ≡ 0) }
{
    let first = beside(other, theirs, words, at == 8 || at == 11);
    let count = look(pass, stock, words);
    let second = beside(other, theirs, words, at == 9 || at == 11);
    let from = refill(pass, stock, words);
    let third = beside(other, theirs, words, at == 10);
    let made = first.saturating_add(second).saturating_add(third);
    if count != 2 {
        (Turn::Torn, made)
    } else if publish(pass, stock, words, from) {
        (Turn::Published, made)
    } else {
        (Turn::Lost, made)
    }
}

// As `try_once`, with the turns of another pass after one of its steps, and how many of these published. Before 8 it does not reserve anew.
fn try_slowly<A: Monoid, B: Monoid>(
    pass: &mut WordPass<'_, A, B>,
    stock: &mut Stock,
    other: &mut WordPass<'_, A, B>,
    theirs: &mut Stock,
    words: &Words<A, B>,
    at: u32,
) -> (Turn, u32)
    requires together { AreTogether words.now pass.old × IsSmall words.now.shape }
    requires stocks { Stocks pass.old.view stock.old }
    requires some { 0 < stock.old.free }
    requires none { stock.old.replaced ≡ 0 }
    requires reserved { 0 < stock.old.era }
    requires other { AreTogether words.now other.old × Stocks other.old.view theirs.old × (theirs.old.replaced ≡ 0) }
    ensures together { AreTogether words.now pass.new }
    ensures stocks { Stocks pass.new.view stock.new }
    ensures none { stock.new.replaced ≡ 0 }
    ensures other { AreTogether words.now other.new × Stocks other.new.view theirs.new × (theirs.new.replaced ≡ 0) }
{
    if at >= 8 {
        return try_anew(pass, stock, other, theirs, words, at);
    }
    let first = beside(other, theirs, words, at == 1);
    let (count, second) = look_slowly(pass, stock, other, theirs, words, at);
    let looked = first.saturating_add(second);
    match count {
        None => return (Turn::Late, looked),
        Some(2) => {}
        Some(_) => return (Turn::Torn, looked),
    }
    let third = beside(other, theirs, words, at == 3);
    let (filled, fourth) = refill_slowly(pass, stock, other, theirs, words, at);
    let fifth = beside(other, theirs, words, at == 7);
    let made = looked
        .saturating_add(third)
        .saturating_add(fourth)
        .saturating_add(fifth);
    match filled {
        None => (Turn::Late, made),
        Some(from) if publish(pass, stock, words, from) => (Turn::Published, made),
        Some(_) => (Turn::Lost, made),
    }
}

// A pass without its table, and the stock of its lane.
#[derive(Drop)]
struct Hand {
    half: WordHalf<Sum, Extent>,
    stock: Stock,
}

// A table of 1 bit and two lanes with so many records each, which opens with both keys.
fn opened(alloc: Global, records: u32) -> Result<(WordsOf, Lead<Sum, Extent>), AllocError>
    ensures together { IfOk result (λ t. AreTogether t.0 t.1) }
    ensures small { IfOk result (λ t. IsSmall t.0.shape) }
    ensures spare { IfOk result (λ t. t.1.view.spare ≡ Some 0) }
{
    let Ok(layout) = Layout::reclaiming(1, 2, records) else {
        return Err(AllocError);
    };
    Words::open(alloc, &layout, 2, &[(0, 0), (1, 1)])
}

// The next lane's.
fn next_hand(
    alloc: Global,
    lead: &mut Lead<Sum, Extent>,
    words: &WordsOf,
    lane: u32,
) -> Result<Hand, AllocError>
    requires together { AreTogether words.now lead.old }
    requires small { IsSmall words.now.shape }
    requires room { (lead.old.view.spare ≡ Some lane) × (lane < 2) }
    ensures together { AreTogether words.now lead.new }
    ensures spare { IfOk result (λ _. lead.new.view.spare ≡ Some (lane + 1)) }
    ensures hand { IfOk result (λ h. AreTogether words.now h.half) }
    ensures stocks { IfOk result (λ h. Stocks h.half.view h.stock) }
    ensures none { IfOk result (λ h. h.stock.replaced ≡ 0) }
{
    let stock = Stock::new(alloc, words, lane)?;
    let pass = lead.split(words);
    if pass.lane() != lane {
        return Err(AllocError);
    }
    Ok(Hand {
        half: pass.into_half(),
        stock,
    })
}

// What a hand's turns came to.
fn work(words: &WordsOf, hand: Hand, times: u32, moves: bool) -> Turns
    requires together { AreTogether words.now hand.half }
    requires small { IsSmall words.now.shape }
    requires stocks { Stocks hand.half.view hand.stock }
    requires none { hand.stock.replaced ≡ 0 }
{
    let Hand { half, mut stock } = hand;
    let mut pass = words.pass(half);
    take_turns(&mut pass, &mut stock, words, times, moves, false)
}

// How many turns of 1,000 publish while another pass stands still with an era that it reserved, if that is asked with all later ones, how many of 1,000 once it let
// go of that or was dropped, and how many records the stock has then.
fn beside_a_holder(
    alloc: Global,
    records: u32,
    moves: bool,
    drops: bool,
    later: bool,
) -> Result<([u32; 2], usize), AllocError> {
    let (words, mut lead) = opened(alloc, records)?;
    let Hand { half, mut stock } = next_hand(alloc, &mut lead, &words, 0)?;
    let mut pass = words.pass(half);
    let Hand {
        half,
        stock: mut other,
    } = next_hand(alloc, &mut lead, &words, 1)?;
    let mut holder = words.pass(half);
    reserve(&mut holder, &mut other, &words, later);
    let beside = take_turns(&mut pass, &mut stock, &words, 1_000, moves, later).published;
    if !drops {
        other.release(&mut holder, &words);
    }
    drop(holder);
    let after = take_turns(&mut pass, &mut stock, &words, 1_000, moves, later).published;
    Ok(([beside, after], stock.size()))
}

// A turn of a pass that stands still after one of its steps while another makes 100 turns: whether it published, was late, lost the exchange or read what no
// record has, how many of those 100 published, and how many of 100 more once it ended.
fn interrupted(alloc: Global, at: u32) -> Result<([bool; 4], u32, u32), AllocError> {
    let (words, mut lead) = opened(alloc, 4)?;
    let Hand { half, mut stock } = next_hand(alloc, &mut lead, &words, 0)?;
    let mut pass = words.pass(half);
    let Hand {
        half,
        stock: mut theirs,
    } = next_hand(alloc, &mut lead, &words, 1)?;
    let mut other = words.pass(half);
    if stock.free() == 0 {
        return Err(AllocError);
    }
    let first = beside(&mut other, &mut theirs, &words, at == 0);
    if !reserve(&mut pass, &mut stock, &words, false) {
        return Err(AllocError);
    }
    let (turn, made) = try_slowly(&mut pass, &mut stock, &mut other, &mut theirs, &words, at);
    stock.release(&mut pass, &words);
    let came = [
        matches!(turn, Turn::Published),
        matches!(turn, Turn::Late),
        matches!(turn, Turn::Lost),
        matches!(turn, Turn::Torn),
    ];
    let after = beside(&mut other, &mut theirs, &words, true);
    Ok((came, first.saturating_add(made), after))
}

// Before it reserved it is not disturbed. Then it reads what it guards, and finds a record that was made too late, or once it loaded the node, another one there.
// Where it reserves anew for such a record it publishes, and holds no more than before.
#[test]
fn a_pass_stands_still_after_any_step(rt: HostRuntime) -> Result<(), AllocError> {
    let published = [true, false, false, false];
    let late = [false, true, false, false];
    let lost = [false, false, true, false];
    let rows = [
        published, late, late, late, lost, lost, lost, lost, published, published, lost,
    ];
    for at in 0..11 {
        equal(
            &rt,
            interrupted(rt.alloc(), at as u32)?,
            (rows[at], 100, 100),
        );
    }
    equal(&rt, interrupted(rt.alloc(), 11)?, (published, 200, 100));
    Ok(())
}

// While the era stands, all that is retired is held, and once it goes on, two records: the one that the node had, and the one that replaced that.
#[test]
fn a_reservation_holds_what_lived_in_its_era(rt: HostRuntime) -> Result<(), AllocError> {
    equal(
        &rt,
        beside_a_holder(rt.alloc(), 2, false, false, false)?,
        ([2, 1_000], 2),
    );
    equal(
        &rt,
        beside_a_holder(rt.alloc(), 30, false, false, false)?,
        ([30, 1_000], 30),
    );
    equal(
        &rt,
        beside_a_holder(rt.alloc(), 2, true, false, false)?,
        ([2, 1_000], 2),
    );
    equal(
        &rt,
        beside_a_holder(rt.alloc(), 3, true, false, false)?,
        ([1_000, 1_000], 3),
    );
    Ok(())
}

// One of an era and all later ones holds all that is retired.
#[test]
fn a_reservation_of_all_later_eras_holds_what_is_retired(
    rt: HostRuntime,
) -> Result<(), AllocError> {
    equal(
        &rt,
        beside_a_holder(rt.alloc(), 30, true, false, true)?,
        ([30, 1_000], 30),
    );
    Ok(())
}

// A pass that is dropped holds for ever what it reserved, and nothing more.
#[test]
fn a_dropped_pass_holds_what_it_reserved(rt: HostRuntime) -> Result<(), AllocError> {
    equal(
        &rt,
        beside_a_holder(rt.alloc(), 2, true, true, false)?,
        ([2, 0], 2),
    );
    equal(
        &rt,
        beside_a_holder(rt.alloc(), 3, true, true, false)?,
        ([1_000, 1_000], 3),
    );
    Ok(())
}

// Two passes at work in threads of their own.
fn two_at_work<R: Threads + Wait + Sync>(
    rt: &R,
    alloc: Global,
    times: u32,
) -> Result<[Turns; 2], AllocError> {
    let (words, mut lead) = opened(alloc, 8)?;
    let one = next_hand(alloc, &mut lead, &words, 0)?;
    let other = next_hand(alloc, &mut lead, &words, 1)?;
    let w = &words;
    let (first, second) = thread::join(
        rt,
        move ||
            requires hand { AreTogether w.now one.half × IsSmall w.now.shape × Stocks one.half.view one.stock × (one.stock.replaced ≡ 0) }
        { work(w, one, times, true) },
        move ||
            requires hand { AreTogether w.now other.half × IsSmall w.now.shape × Stocks other.half.view other.stock × (other.stock.replaced ≡ 0) }
        { work(w, other, times, true) },
    );
    Ok([first, second])
}

// A turn that does not publish was in the way of one that did, so half of them publish, with eight records each.
#[test]
fn two_threads_use_their_records_again(rt: HostRuntime) -> Result<(), AllocError> {
    let [first, second] = two_at_work(&rt, rt.alloc(), 20_000)?;
    equal(
        &rt,
        [first.full, first.torn, second.full, second.torn],
        [0; 4],
    );
    holds(
        &rt,
        first.published.saturating_add(second.published) >= 20_000,
    );
    Ok(())
}
