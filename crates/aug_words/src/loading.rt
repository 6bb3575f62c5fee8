//! What a node's record is made of, loaded so that what is reserved holds the records that it names.
ghost use Rattle.std.specs.Prelude.{◌≡◌, ◌⊎◌, ◌+◌, ◌-◌, ◌*◌, ◌^◌, ◌<◌, ◌≤◌, IfNone, IfSome, nat_lt};
ghost use Rattle.aug_core.specs.Addresses.{place_count, IsInner};
ghost use Rattle.aug_core.specs.Faces.{face};
ghost use Rattle.aug_words.specs.Reservations.{HasReservations};
ghost use Rattle.aug_words.specs.Seats.{AreTogether, StaysAt};
ghost use Rattle.aug_words.specs.Stocks.{GoesBy, HasSeenLater, HasSeenLaterOver, LoadsHeld, LoadsOver, Stocks};
ghost use Rattle.aug_words.specs.inside.Stocking.{GoesStill, LoadsWord, LoadsWords, covers_three};

use crate::pass::WordPass;
use crate::stock::Stock;
use crate::words::Words;
use aug_monoid::Monoid;

// Loads the word of a leaf or a node: one step.
fn load_word<A: Monoid, B: Monoid>(pass: &mut WordPass<A, B>, leaves: usize, place: usize) -> u64
    requires leaves { leaves ≡ 2 ^ pass.old.view.shape.bits }
    requires place { place < place_count pass.old.view.shape }
    ensures { StaysAt pass.old pass.new (LoadsWord (face A.parts B.parts) pass.old.view place result pass.new.view) }
{
    if place < leaves {
        pass.load_leaf(place)
    } else {
        pass.load_node(place)
    }
}

// Loads the words of a node and of its two children: three steps.
fn load_words<A: Monoid, B: Monoid>(
    pass: &mut WordPass<A, B>,
    leaves: usize,
    node: usize,
) -> (u64, u64, u64)
    requires leaves { leaves ≡ 2 ^ pass.old.view.shape.bits }
    requires inner { IsInner pass.old.view.shape node }
    ensures { StaysAt pass.old pass.new (LoadsWords (face A.parts B.parts) pass.old.view node result pass.new.view) }
{
    let child = 2 * (node - leaves);
    let from = load_word(pass, leaves, node);
    let left = load_word(pass, leaves, child);
    let right = load_word(pass, leaves, child + 1);
    (from, left, right)
}

impl Stock {
    // Whether the records that these words of a node and of its children name were born no later than what is reserved. A leaf's word names none.
    fn covers_all(&self, leaves: usize, node: usize, found: (u64, u64, u64)) -> bool
        requires inner { (leaves ≤ node) × (node < 2 * leaves) }
        ensures { result ≡ covers_three self.now.era (nat_lt (2 * (node - leaves)) leaves) found }
    {
        let (from, left, right) = found;
        let over_leaves = 2 * (node - leaves) < leaves;
        self.covers(from) && (over_leaves || self.covers(left) && self.covers(right))
    }

    // Loads the words of a node and of its two children, and gives them if what is reserved holds the records that they name: three steps.
    fn try_over<A: Monoid, B: Monoid>(
        &self,
        pass: &mut WordPass<A, B>,
        leaves: usize,
        node: usize,
    ) -> Option<(u64, u64, u64)>
        requires leaves { leaves ≡ 2 ^ pass.old.view.shape.bits }
        requires inner { IsInner pass.old.view.shape node }
        requires stocks { Stocks pass.old.view self.now }
        requires reserved { 0 < self.now.era }
        ensures still { StaysAt pass.old pass.new (GoesStill 3 pass.old.view pass.new.view) }
        ensures stocks { Stocks pass.new.view self.now }
        ensures loads { IfSome result (λ r. LoadsOver (face A.parts B.parts) 3 self.now.era pass.old.view node r pass.new.view) }
        ensures late { IfNone result (HasSeenLaterOver pass.new.view node self.now.era) }
    {
        let found = load_words(pass, leaves, node);
        if self.covers_all(leaves, node, found) {
            Some(found)
        } else {
            None
        }
    }

    // Reserves the era that it loads, or if there is none left the last one and all later ones: at most three steps.
    fn reserve_any<A: Monoid, B: Monoid>(&mut self, pass: &mut WordPass<A, B>, words: &Words<A, B>)
        requires together { AreTogether words.now pass.old }
        requires slots { HasReservations pass.old.view }
        requires stocks { Stocks pass.old.view self.old }
        ensures goes { StaysAt pass.old pass.new (GoesBy 3 pass.old.view pass.new.view) }
        ensures reserved { 0 < self.new.era }
        ensures stocks { Stocks pass.new.view self.new }
        ensures same { self.new ≡ record self.old { era = self.new.era } }
    {
        if !self.reserve(pass, words) {
            self.reserve_later(pass, words);
        }
    }

    // Loads a node's word, and gives it if what is reserved holds the record that it names: one step.
    fn try_held<A: Monoid, B: Monoid>(&self, pass: &mut WordPass<A, B>, node: usize) -> Option<u64>
        requires inner { IsInner pass.old.view.shape node }
        requires stocks { Stocks pass.old.view self.now }
        requires reserved { 0 < self.now.era }
        ensures still { StaysAt pass.old pass.new (GoesStill 1 pass.old.view pass.new.view) }
        ensures stocks { Stocks pass.new.view self.now }
        ensures loads { IfSome result (λ r. LoadsHeld (face A.parts B.parts) 1 pass.old.view node r pass.new.view) }
        ensures late { IfNone result (HasSeenLater pass.new.view node self.now.era) }
    {
        let found = pass.load_node(node);
        if self.covers(found) {
            Some(found)
        } else {
            None
        }
    }

    /// Loads a node's word so that what is reserved holds the record that it names. If that was born later, it reserves anew and loads again, and the next
    /// time it reserves all later eras too: so it ends within 8 steps.
    pub fn load_held<A: Monoid, B: Monoid>(
        &mut self,
        pass: &mut WordPass<A, B>,
        words: &Words<A, B>,
        node: usize,
    ) -> u64
        requires together { AreTogether words.now pass.old }
        requires slots { HasReservations pass.old.view }
        requires stocks { Stocks pass.old.view self.old }
        requires reserved { 0 < self.old.era }
        requires inner { IsInner pass.old.view.shape node }
        ensures loads { StaysAt pass.old pass.new (LoadsHeld (face A.parts B.parts) 8 pass.old.view node result pass.new.view) }
        ensures stocks { Stocks pass.new.view self.new }
        ensures reserved { 0 < self.new.era }
        ensures same { self.new ≡ record self.old { era = self.new.era } }
        ensures kept { (self.new.era ≡ self.old.era) ⊎ HasSeenLater pass.new.view node self.old.era }
    {
        if let Some(found) = self.try_held(pass, node) {
            return found;
        }
        self.reserve_any(pass, words);
        if let Some(found) = self.try_held(pass, node) {
            return found;
        }
        self.reserve_later(pass, words);
        pass.load_node(node)
    }

    // Reserves an era if none is reserved: at most three steps.
    fn reserve_first<A: Monoid, B: Monoid>(
        &mut self,
        pass: &mut WordPass<A, B>,
        words: &Words<A, B>,
    )
        requires together { AreTogether words.now pass.old }
        requires slots { HasReservations pass.old.view }
        requires stocks { Stocks pass.old.view self.old }
        ensures goes { StaysAt pass.old pass.new (GoesBy 3 pass.old.view pass.new.view) }
        ensures reserved { 0 < self.new.era }
        ensures stocks { Stocks pass.new.view self.new }
        ensures same { self.new ≡ record self.old { era = self.new.era } }
    {
        if self.era() == 0 {
            self.reserve_any(pass, words);
        }
    }

    /// Loads a node's word as [`load_held`](Stock::load_held) does, and reserves an era before that if none is reserved: so it ends within 11 steps.
    pub fn look_at<A: Monoid, B: Monoid>(
        &mut self,
        pass: &mut WordPass<A, B>,
        words: &Words<A, B>,
        node: usize,
    ) -> u64
        requires together { AreTogether words.now pass.old }
        requires slots { HasReservations pass.old.view }
        requires stocks { Stocks pass.old.view self.old }
        requires inner { IsInner pass.old.view.shape node }
        ensures loads { StaysAt pass.old pass.new (LoadsHeld (face A.parts B.parts) 11 pass.old.view node result pass.new.view) }
        ensures stocks { Stocks pass.new.view self.new }
        ensures same { self.new ≡ record self.old { era = self.new.era } }
    {
        self.reserve_first(pass, words);
        self.load_held(pass, words, node)
    }

    /// Loads the words of a node, of its left child and of its right child, so that what is reserved holds the records that they name. If one was born later,
    /// it reserves anew and loads all three again, and the next time it reserves all later eras too: so it ends within 14 steps. The table has `leaves` leaves.
    pub fn load_over<A: Monoid, B: Monoid>(
        &mut self,
        pass: &mut WordPass<A, B>,
        words: &Words<A, B>,
        leaves: usize,
        node: usize,
    ) -> (u64, u64, u64)
        requires together { AreTogether words.now pass.old }
        requires slots { HasReservations pass.old.view }
        requires stocks { Stocks pass.old.view self.old }
        requires reserved { 0 < self.old.era }
        requires leaves { leaves ≡ 2 ^ pass.old.view.shape.bits }
        requires inner { IsInner pass.old.view.shape node }
        ensures loads { StaysAt pass.old pass.new (LoadsOver (face A.parts B.parts) 14 self.new.era pass.old.view node result pass.new.view) }
        ensures stocks { Stocks pass.new.view self.new }
        ensures reserved { 0 < self.new.era }
        ensures same { self.new ≡ record self.old { era = self.new.era } }
        ensures kept { (self.new.era ≡ self.old.era) ⊎ HasSeenLaterOver pass.new.view node self.old.era }
    {
        if let Some(found) = self.try_over(pass, leaves, node) {
            return found;
        }
        self.reserve_any(pass, words);
        if let Some(found) = self.try_over(pass, leaves, node) {
            return found;
        }
        self.reserve_later(pass, words);
        load_words(pass, leaves, node)
    }
}
