//! A seat that reads what its lender had seen.
ghost use Rattle.std.specs.Prelude.{◌≡◌, ◌+◌};
ghost use Rattle.aug_core.specs.Effects.{GuardsRecord};
ghost use Rattle.aug_core.specs.Fields.{field_offset};
ghost use Rattle.aug_core.specs.Readers.{lending, reader_of};
ghost use Rattle.aug_words.specs.Leads.{TakesReader};
ghost use Rattle.aug_words.specs.Seats.{AreTogether, LoadsRecordWord, StaysAt};

use crate::pass::{WordPass, record_word};
use crate::words::Words;
use atomic_table::Seat;
use aug_core::{Lend, LoadAnyRecord, RecordField, SeatView, TakeReader};
use aug_monoid::Monoid;
use std::marker::{Model, PhantomData};

/// A seat without a lane. It loads words of the records that its lender had seen for as long as it lives, beside all passes, and also once its era is
/// over: where it reads, nothing is laid out for a later era until it was taken back. It names no lifetime, so a closure may own it. One that is dropped
/// is never taken back.
#[derive(Drop)]
pub struct WordReader<A: Monoid, B: Monoid> {
    pub(crate) seat: Seat<(), SeatView>,
    // The first word of the part of the table where it reads.
    pub(crate) base: usize,
    pub(crate) sums: PhantomData<(A, B)>,
}

impl<A: Monoid, B: Monoid> Model for WordReader<A, B> {
    ghost use Rattle.aug_core.specs.Faces.{face};
    ghost use Rattle.aug_words.specs.Seats.{Known};
    ghost use Rattle.aug_words.specs.inside.SeatState.{IsReaderSeat};

    ghost Value = { Known };

    ghost view = { λ r. record { table = r.seat.table_id; view = r.seat.me.0 } };

    ghost invariant = { λ r. IsReaderSeat (face A.parts B.parts) r.seat.table_id r.base r.seat.me };
}

impl<A: Monoid, B: Monoid> WordReader<A, B> {
    /// Loads one of the five words of a record that the reader has seen, as a pass does.
    #[inline(always)]
    pub fn load_record_word(&mut self, words: &Words<A, B>, number: u64, field: RecordField) -> u64
        requires together { AreTogether words.now self.old }
        requires guards { GuardsRecord self.old.view number }
        ensures { StaysAt self.old self.new (LoadsRecordWord self.old.view number (field_offset field) result self.new.view) }
    {
        let place = record_word(self.base + words.records, number, field.offset());
        words
            .table
            .shared
            .load::<LoadAnyRecord>(&mut self.seat, place)
    }
}

impl<'r, A: Monoid, B: Monoid> WordPass<'r, A, B> {
    /// Lends a reader, which has seen what the pass has seen. As many may be out as the caller likes. To lend it and to take it back costs a load of the
    /// table's first word each, which tells nothing.
    pub fn lend(&mut self) -> WordReader<A, B>
        requires keeps { self.old.view.shape.reservations ≡ 0 }
        ensures table { self.new.table ≡ self.old.table }
        ensures lends { self.new.view ≡ lending self.old.view }
        ensures reader_table { result.table ≡ self.old.table }
        ensures reader { result.view ≡ reader_of self.old.view }
    {
        let seat = self.words.split_seat::<Lend>(&mut self.seat);
        self.lent = self.lent.saturating_add(1);
        WordReader {
            seat,
            base: self.base,
            sums: PhantomData,
        }
    }

    /// Takes a reader back that it lent. Any other reader comes back, and so does each while 2^32 - 1 and more are out.
    pub fn take(&mut self, reader: WordReader<A, B>) -> Result<(), WordReader<A, B>>
        requires table { reader.table ≡ self.old.table }
        ensures { TakesReader self.old self.new reader result }
    {
        if reader.base != self.base || self.lent == 0 || self.lent == u32::MAX {
            return Err(reader);
        }
        let WordReader { seat, .. } = reader;
        self.words.join_seat::<TakeReader>(&mut self.seat, seat);
        self.lent -= 1;
        Ok(())
    }
}
