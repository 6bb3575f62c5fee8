//! A table is opened again in its own memory, in a part beside the one that was at work.
ghost use Rattle.std.specs.Prelude.{◌≡◌, ℕ, ◌+◌, ◌<◌, ◌≤◌, ◌^◌, [], true, List};
ghost use Rattle.aug_core.specs.Faces.{face};
ghost use Rattle.aug_core.specs.Eras.{opening_with};
ghost use Rattle.aug_core.specs.Layout.{IsLayout};
ghost use Rattle.aug_core.specs.Renewals.{HoldsAll, IsOpened, Reopens};
ghost use Rattle.aug_words.specs.Leads.{MayOpen};
ghost use Rattle.aug_words.specs.Rests.{OpensAgain};
ghost use Rattle.aug_words.specs.Seats.{AreTogether};
ghost use Rattle.aug_words.specs.inside.Laying.{OpensOver, words_in};

use crate::lead::Lead;
use crate::words::Words;
use atomic_table::Seat;
use aug_core::{OpenAgain, SeatView, SharedWords};
use aug_monoid::Monoid;

// Ends the era of a table whose lanes are all back, and opens it in a part whose words the seat has written: a load of the first of them.
fn reopen<A: Monoid, B: Monoid>(
    words: &SharedWords<A, B>,
    seat: &mut Seat<(), SeatView>,
    base: usize,
)
    requires table { seat.old.table_id ≡ words.now.table_id }
    requires some { base < words.now.table_id.words }
    requires laid_out { IsLayout seat.old.me.0.shape }
    requires keeps { seat.old.me.0.shape.reservations ≡ 0 }
    requires live { seat.old.me.0.live ≡ true }
    requires no_slot { seat.old.me.1 ≡ [] }
    requires all { HoldsAll seat.old.me.0 }
    requires opened { OpensOver (face A.parts B.parts) base seat.old.me.0 }
    ensures table { seat.new.table_id ≡ seat.old.table_id }
    ensures no_slot { seat.new.me.1 ≡ [] }
    ensures view { (members : List (ℕ × ℕ)) → IsOpened (face A.parts B.parts) (opening_with seat.old.me.0.shape members) (words_in base seat.old.me.0.shape seat.old.me.0) → Reopens (face A.parts B.parts) members base seat.old.me.0 seat.new.me.0 }
{
    words.load::<OpenAgain<A, B>>(seat, base);
}

impl<A: Monoid, B: Monoid> Words<A, B> {
    /// Ends the era, once all passes that its lead handed out are back, and opens the table again, in another part, over the set of the last cut that
    /// the lead knows. It has room for all keys. The lead hands out all lanes anew. What [`Lead::prepare`] has left to do is done first, and what is right
    /// already is not stored. Then a load of the first word of that part opens it. The call takes no memory. Readers that are out read on.
    pub fn open_again(&self, lead: Lead<A, B>) -> Lead<A, B>
        requires together { AreTogether self.now lead }
        requires room { 2 ^ self.now.shape.bits ≤ self.now.shape.members }
        requires keeps { self.now.shape.reservations ≡ 0 }
        requires all { HoldsAll lead.view }
        requires free { MayOpen lead }
        ensures together { AreTogether self.now result }
        ensures opens { OpensAgain (face A.parts B.parts) lead.view result.view }
    {
        let Lead {
            mut seat,
            base,
            root,
            mut draft,
            mut parts,
            sums,
            ..
        } = lead;
        let size = self.layout.words() as usize;
        if !draft.aim(&mut parts, size) {
            unreachable!()
        }
        draft.left = None;
        let (top, universe) = (self.lanes - 1, self.lanes / 2 + 1);
        self.bring(
            &mut seat,
            &mut draft,
            base + self.records,
            top,
            root,
            0,
            universe,
        );
        let next = draft.base;
        self.lay_shared(&mut seat, next);
        self.free_lanes(&mut seat, next);
        reopen(&self.table.shared, &mut seat, next);
        draft.turn(base);
        parts.swap();
        Lead {
            seat,
            base: next,
            next: 0,
            root: self.own_number(top),
            draft,
            parts,
            sums,
        }
    }
}
