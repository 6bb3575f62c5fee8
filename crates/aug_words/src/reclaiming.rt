//! The steps by which a pass comes to use records again.
ghost use Rattle.std.specs.Prelude.{◌≡◌, ◌≤◌, ◌<◌, ◌^◌};
ghost use Rattle.aug_core.specs.Records.{first_era};
ghost use Rattle.aug_core.specs.Effects.{own_lane};
ghost use Rattle.aug_core.specs.Reclaiming.{Reserves, releasing};
ghost use Rattle.aug_words.specs.Seats.{AreTogether, StaysAt};
ghost use Rattle.aug_words.specs.Reservations.{HasReservations, LoadsEra, TurnsEra, Retires, MayRetire, PassesReservation};

use crate::pass::WordPass;
use crate::words::Words;
use aug_core::{LoadEra, PassReservation, ReleaseEra, ReserveEra, RetireReplaced, TurnEra};
use aug_monoid::Monoid;

/// In a table that uses records again, each of these calls is one atomic step, and takes no memory.
impl<'r, A: Monoid, B: Monoid> WordPass<'r, A, B> {
    /// Loads the era.
    pub fn load_era(&mut self, words: &Words<A, B>) -> u64
        requires together { AreTogether words.now self.old }
        requires slots { HasReservations self.old.view }
        ensures { StaysAt self.old self.new (LoadsEra self.old.view result self.new.view) }
    {
        let place = self.base + words.layout.era();
        self.words.load::<LoadEra>(&mut self.seat, place)
    }

    /// Moves the era from this one to the next. True if it was this one.
    pub fn turn_era(&mut self, words: &Words<A, B>, era: u64) -> bool
        requires together { AreTogether words.now self.old }
        requires slots { HasReservations self.old.view }
        requires fits { era < 2 ^ 40 }
        ensures { StaysAt self.old self.new (TurnsEra self.old.view era result self.new.view) }
    {
        let place = self.base + words.layout.era();
        let found = self
            .words
            .compare_exchange::<TurnEra>(&mut self.seat, place, era, era + 1);
        found == era
    }

    /// Reserves an era that it has reached, or with the upmost bit set that and all later ones: of the records that are in use or named from then on, those
    /// that were made by these eras are not written while the reservation stands. What it reserved there before it lets go of.
    pub fn reserve_era(&mut self, words: &Words<A, B>, era: u64)
        requires together { AreTogether words.now self.old }
        requires slots { HasReservations self.old.view }
        requires some_era { 1 ≤ era }
        requires reached { first_era era ≤ self.old.view.reached }
        ensures { StaysAt self.old self.new (Reserves self.old.view (own_lane self.old.view.held) era self.new.view) }
    {
        let place = self.base + words.layout.reservation(self.lane);
        self.words.store::<ReserveEra>(&mut self.seat, place, era);
    }

    /// Lets go of what it reserved.
    pub fn release_era(&mut self, words: &Words<A, B>)
        requires together { AreTogether words.now self.old }
        requires slots { HasReservations self.old.view }
        ensures { StaysAt self.old self.new (self.new.view ≡ releasing self.old.view (own_lane self.old.view.held)) }
    {
        let place = self.base + words.layout.reservation(self.lane);
        self.words.store::<ReleaseEra>(&mut self.seat, place, 0);
    }

    // Takes the records that were replaced from its lane, once it has seen the root show later ones: loads the era. It may write such a record once it has
    // found no reservation that holds it.
    pub(crate) fn retire_replaced(&mut self, words: &Words<A, B>) -> u64
        requires together { AreTogether words.now self.old }
        requires slots { HasReservations self.old.view }
        requires later { MayRetire self.old.view }
        ensures { StaysAt self.old self.new (Retires self.old.view result self.new.view) }
    {
        let place = self.base + words.layout.era();
        self.words.load::<RetireReplaced>(&mut self.seat, place)
    }

    /// Loads the reservation of a lane. Of the pass's own records, those that were known not to be held by the reservations before this one are then known
    /// not to be held by this one, unless it holds an era in which they lived.
    pub fn pass_reservation(&mut self, words: &Words<A, B>, lane: u32) -> u64
        requires together { AreTogether words.now self.old }
        requires lane { lane < self.old.view.shape.reservations }
        ensures { StaysAt self.old self.new (PassesReservation self.old.view lane result self.new.view) }
    {
        let place = self.base + words.layout.reservation(lane);
        self.words.load::<PassReservation>(&mut self.seat, place)
    }
}
