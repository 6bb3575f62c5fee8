//! What each step shows. These types are only for the proofs.
ghost use Rattle.aug_core.specs.Effects.{in_part, read_record, stored_record, took_lane, finished_lane, handing_out, handed_out, taking_back, noting, noted, spent, loaded_leaf, began_at_leaf, tried_leaf, loaded_node, tried_node};
ghost use Rattle.aug_core.specs.Reclaiming.{loaded_era, turned_era, reserved_era, released_era, retired, scanned};
ghost use Rattle.aug_core.specs.Readers.{lending, reader_of, taking_reader};
ghost use Rattle.aug_core.specs.Learning.{learning, loaded_after_note};
ghost use Rattle.aug_core.specs.Renewals.{rewrote, reread, surveyed, reopened};
ghost use Rattle.aug_core.specs.Faces.{face};

use crate::view::SeatView;
use atomic_table::{Join, Play, Split};
use aug_monoid::Monoid;
use std::marker::PhantomData;

/// A load of a word of any record.
pub struct LoadAnyRecord;

impl Play<(), SeatView> for LoadAnyRecord {
    ghost then = { in_part read_record };
}

/// A store of a word of a record of the seat's own lane.
pub struct StoreOwnRecord;

impl Play<(), SeatView> for StoreOwnRecord {
    ghost then = { in_part stored_record };
}

/// A compare-exchange of the own lane's word, from free to taken.
pub struct TakeOwnLane;

impl Play<(), SeatView> for TakeOwnLane {
    ghost then = { in_part took_lane };
}

/// A store of the own lane's word as ended.
pub struct FinishOwnLane;

impl Play<(), SeatView> for FinishOwnLane {
    ghost then = { in_part finished_lane };
}

/// A view hands out its next lane to a new one.
pub struct HandOut;

impl Split<SeatView> for HandOut {
    ghost left = { handing_out };

    ghost right = { handed_out };
}

/// A view takes in the lanes of another.
pub struct TakeBack;

impl Join<SeatView> for TakeBack {
    ghost both = { taking_back };

    ghost spent = { spent };
}

/// A view lends a reader: a new view that holds no lane.
pub struct Lend;

impl Split<SeatView> for Lend {
    ghost left = { lending };

    ghost right = { reader_of };
}

/// A view takes a reader back.
pub struct TakeReader;

impl Join<SeatView> for TakeReader {
    ghost both = { taking_reader };

    ghost spent = { spent };
}

/// A view makes a note of what it has seen: a new view that holds no lane.
pub struct MakeNote;

impl Split<SeatView> for MakeNote {
    ghost left = { noting };

    ghost right = { noted };
}

/// A view takes in a note.
pub struct TakeNote;

impl Join<SeatView> for TakeNote {
    ghost both = { learning };

    ghost spent = { spent };
}

/// A load of a leaf's word.
pub struct LoadAnyLeaf<A, B> {
    sums: PhantomData<(A, B)>,
}

impl<A: Monoid, B: Monoid> Play<(), SeatView> for LoadAnyLeaf<A, B> {
    ghost then = { in_part (loaded_leaf (face A.parts B.parts)) };
}

/// A load of a leaf's word, with which an update begins.
pub struct BeginAtLeaf<A, B> {
    sums: PhantomData<(A, B)>,
}

impl<A: Monoid, B: Monoid> Play<(), SeatView> for BeginAtLeaf<A, B> {
    ghost then = { in_part (began_at_leaf (face A.parts B.parts)) };
}

/// A compare-exchange of a leaf's word, from a serial to the next.
pub struct TryAnyLeaf<A, B> {
    sums: PhantomData<(A, B)>,
}

impl<A: Monoid, B: Monoid> Play<(), SeatView> for TryAnyLeaf<A, B> {
    ghost then = { in_part (tried_leaf (face A.parts B.parts)) };
}

/// A load of a node's word.
pub struct LoadAnyNode<A, B> {
    sums: PhantomData<(A, B)>,
}

impl<A: Monoid, B: Monoid> Play<(), SeatView> for LoadAnyNode<A, B> {
    ghost then = { in_part (loaded_node (face A.parts B.parts)) };
}

/// A load of a node's word by a seat that took in a note.
pub struct LoadAfterNote<A, B> {
    sums: PhantomData<(A, B)>,
}

impl<A: Monoid, B: Monoid> Play<(), SeatView> for LoadAfterNote<A, B> {
    ghost then = { in_part (loaded_after_note (face A.parts B.parts)) };
}

/// A compare-exchange of a node's word, to a record of the seat's own lane.
pub struct TryAnyNode<A, B> {
    sums: PhantomData<(A, B)>,
}

impl<A: Monoid, B: Monoid> Play<(), SeatView> for TryAnyNode<A, B> {
    ghost then = { in_part (tried_node (face A.parts B.parts)) };
}

/// A load of a node's word by a seat that stays at work, which shows that its table meets the rule with its view.
pub struct Survey<A, B> {
    sums: PhantomData<(A, B)>,
}

impl<A: Monoid, B: Monoid> Play<(), SeatView> for Survey<A, B> {
    ghost then = { in_part (surveyed (face A.parts B.parts)) };
}

/// A store of any word beside the part of the table that is at work, by the seat that hands lanes out.
pub struct StoreAnyWord;

impl Play<(), SeatView> for StoreAnyWord {
    ghost then = { rewrote };
}

/// A load of such a word by that seat.
pub struct LoadAnyWord;

impl Play<(), SeatView> for LoadAnyWord {
    ghost then = { reread };
}

/// A load of the first word of another part, by which that seat ends the era, and opens the table again there.
pub struct OpenAgain<A, B> {
    sums: PhantomData<(A, B)>,
}

impl<A: Monoid, B: Monoid> Play<(), SeatView> for OpenAgain<A, B> {
    ghost then = { reopened (face A.parts B.parts) };
}

/// A load of the era, in a table that uses records again.
pub struct LoadEra;

impl Play<(), SeatView> for LoadEra {
    ghost then = { in_part loaded_era };
}

/// A compare-exchange of the era, to the next.
pub struct TurnEra;

impl Play<(), SeatView> for TurnEra {
    ghost then = { in_part turned_era };
}

/// A store of an era that was reached as the own reservation.
pub struct ReserveEra;

impl Play<(), SeatView> for ReserveEra {
    ghost then = { in_part reserved_era };
}

/// A store of 0 as the own reservation.
pub struct ReleaseEra;

impl Play<(), SeatView> for ReleaseEra {
    ghost then = { in_part released_era };
}

/// A load of the era by which the seat comes to own what it replaced, once the root shows later entries.
pub struct RetireReplaced;

impl Play<(), SeatView> for RetireReplaced {
    ghost then = { in_part retired };
}

/// A load of a reservation, by which the seat passes those of its own records that this one does not hold.
pub struct PassReservation;

impl Play<(), SeatView> for PassReservation {
    ghost then = { in_part scanned };
}
