//! A whole update over a stock.
ghost use Rattle.std.specs.Prelude.{◌≡◌, ◌+◌, ◌^◌, ◌<◌, ◌≤◌, true, false, []};
ghost use Rattle.aug_core.specs.Faces.{face};
ghost use Rattle.aug_trie.specs.inside.Goes.{HasLeaves};
ghost use Rattle.aug_trie.specs.inside.Knows.{knows};
ghost use Rattle.aug_trie.specs.inside.Lasting.{KeepsStock, IsScanned, LooksAt, MovesOn, UpdatedHeld, UpdatedOver, WorksBy};

use crate::lasting::lifting::lift_all;
use crate::updates::batch::at_leaf;
use crate::updates::request::Request;
use crate::updates::told::LeafUpdate;
use aug_monoid::Monoid;
use aug_words::{Stock, WordPass, Words};

// Reserves the era that it finds. If there is none left, the last one and all later ones.
pub(crate) fn reserve<A: Monoid, B: Monoid>(
    pass: &mut WordPass<A, B>,
    stock: &mut Stock,
    words: &Words<A, B>,
)
    requires keeps { KeepsStock (face A.parts B.parts) words.now pass.old stock.old }
    ensures keeps { KeepsStock (face A.parts B.parts) words.now pass.new stock.new }
    ensures reserved { 0 < stock.new.era }
    ensures same { stock.new ≡ record stock.old { era = stock.new.era } }
    ensures works { WorksBy (face A.parts B.parts) 3 [] pass.old.view pass.new.view }
{
    if !stock.reserve(pass, words) {
        stock.reserve_later(pass, words);
    }
}

// Lets go of what it reserved.
pub(crate) fn release<A: Monoid, B: Monoid>(
    pass: &mut WordPass<A, B>,
    stock: &mut Stock,
    words: &Words<A, B>,
)
    requires keeps { KeepsStock (face A.parts B.parts) words.now pass.old stock.old }
    ensures keeps { KeepsStock (face A.parts B.parts) words.now pass.new stock.new }
    ensures same { stock.new ≡ record stock.old { era = 0 } }
    ensures knows { knows pass.new.view ≡ knows pass.old.view }
    ensures works { WorksBy (face A.parts B.parts) 1 [] pass.old.view pass.new.view }
{
    stock.release(pass, words);
}

// Loads the root's word so that what is reserved holds its record and all below it. An era is reserved before that if none is.
pub(crate) fn look_at_root<A: Monoid, B: Monoid>(
    pass: &mut WordPass<A, B>,
    stock: &mut Stock,
    words: &Words<A, B>,
    leaves: usize,
) -> u64
    requires keeps { KeepsStock (face A.parts B.parts) words.now pass.old stock.old }
    requires leaves { HasLeaves pass.old.view.shape leaves }
    ensures keeps { KeepsStock (face A.parts B.parts) words.now pass.new stock.new }
    ensures same { stock.new ≡ record stock.old { era = stock.new.era } }
    ensures looks { LooksAt (face A.parts B.parts) pass.old.view result pass.new.view }
{
    stock.look_at(pass, words, 2 * leaves - 2)
}

// Changes the leaf of a key as it is asked to, unless its word refuses that, brings what it is then to the root, and retires what it replaced on the way.
pub(crate) fn update_over<A: Monoid, B: Monoid>(
    pass: &mut WordPass<A, B>,
    stock: &mut Stock,
    words: &Words<A, B>,
    leaves: usize,
    bits: u32,
    key: u32,
    request: Request,
) -> LeafUpdate
    requires keeps { KeepsStock (face A.parts B.parts) words.now pass.old stock.old }
    requires reserved { 0 < stock.old.era }
    requires leaves { HasLeaves pass.old.view.shape leaves }
    requires bits { bits ≡ pass.old.view.shape.bits }
    requires key { key < 2 ^ pass.old.view.shape.bits }
    requires records { bits ≤ stock.old.free }
    requires none { stock.old.replaced ≡ 0 }
    ensures keeps { KeepsStock (face A.parts B.parts) words.now pass.new stock.new }
    ensures none { stock.new.replaced ≡ 0 }
    ensures updated { UpdatedOver (face A.parts B.parts) pass.old.view key request result pass.new.view }
    ensures records { stock.old.free ≤ stock.new.free + bits }
{
    let made = at_leaf(pass, key, request);
    lift_all(pass, stock, words, leaves, bits, key as usize);
    stock.retire(pass, words);
    made
}

// Moves the era on, if there is a next one.
fn move_on<A: Monoid, B: Monoid>(pass: &mut WordPass<A, B>, stock: &Stock, words: &Words<A, B>)
    requires keeps { KeepsStock (face A.parts B.parts) words.now pass.old stock.now }
    ensures keeps { KeepsStock (face A.parts B.parts) words.now pass.new stock.now }
    ensures moved { MovesOn (face A.parts B.parts) pass.old.view pass.new.view }
{
    let _ = stock;
    let era = pass.load_era(words);
    if era < 1 << 40 {
        pass.turn_era(words, era);
    }
}

// Moves the era on, and loads all reservations. Of the records that wait, those that none of these holds may be written.
fn renew<A: Monoid, B: Monoid>(pass: &mut WordPass<A, B>, stock: &mut Stock, words: &Words<A, B>)
    requires keeps { KeepsStock (face A.parts B.parts) words.now pass.old stock.old }
    requires none { stock.old.replaced ≡ 0 }
    ensures keeps { KeepsStock (face A.parts B.parts) words.now pass.new stock.new }
    ensures none { stock.new.replaced ≡ 0 }
    ensures same { stock.new.era ≡ stock.old.era }
    ensures scanned { IsScanned (face A.parts B.parts) pass.old.view stock.old pass.new.view stock.new }
{
    move_on(pass, stock, words);
    stock.scan(pass, words);
}

// Whether the stock has the records of an update. If it has not, or it is time to, the reservations are loaded, and what none of them holds may be written.
pub(crate) fn has_room<A: Monoid, B: Monoid>(
    pass: &mut WordPass<A, B>,
    stock: &mut Stock,
    words: &Words<A, B>,
    bits: u32,
    due: bool,
) -> bool
    requires keeps { KeepsStock (face A.parts B.parts) words.now pass.old stock.old }
    requires none { stock.old.replaced ≡ 0 }
    ensures keeps { KeepsStock (face A.parts B.parts) words.now pass.new stock.new }
    ensures none { stock.new.replaced ≡ 0 }
    ensures same { stock.new.era ≡ stock.old.era }
    ensures works { WorksBy (face A.parts B.parts) (pass.old.view.shape.reservations + 2) [] pass.old.view pass.new.view }
    ensures room { result ≡ true → bits ≤ stock.new.free }
    ensures full { result ≡ false → (stock.new.free < bits) × IsScanned (face A.parts B.parts) pass.old.view stock.old pass.new.view stock.new }
{
    if !due && stock.free() >= bits as usize {
        return true;
    }
    renew(pass, stock, words);
    stock.free() >= bits as usize
}

// An update with an era reserved.
pub(crate) fn update_held<A: Monoid, B: Monoid>(
    pass: &mut WordPass<A, B>,
    stock: &mut Stock,
    words: &Words<A, B>,
    leaves: usize,
    bits: u32,
    key: u32,
    request: Request,
) -> LeafUpdate
    requires keeps { KeepsStock (face A.parts B.parts) words.now pass.old stock.old }
    requires leaves { HasLeaves pass.old.view.shape leaves }
    requires bits { bits ≡ pass.old.view.shape.bits }
    requires key { key < 2 ^ pass.old.view.shape.bits }
    requires records { bits ≤ stock.old.free }
    requires none { stock.old.replaced ≡ 0 }
    ensures keeps { KeepsStock (face A.parts B.parts) words.now pass.new stock.new }
    ensures none { stock.new.replaced ≡ 0 }
    ensures rests { stock.new.era ≡ 0 }
    ensures updated { UpdatedHeld (face A.parts B.parts) pass.old.view key request result pass.new.view }
{
    reserve(pass, stock, words);
    let made = update_over(pass, stock, words, leaves, bits, key, request);
    release(pass, stock, words);
    made
}
