//! What a seat knows. No values of these types are made: they are only for contracts and proofs.
use crate::layout::Layout;
use crate::step::StepTaken;
use std::collections::LinkedList;

/// What the word of a leaf or an inner node has named: a leaf's serial, or the record of an inner node.
pub struct Entry {
    /// The record's number, or the leaf's serial.
    pub number: u64,
    /// The word that names the entry: for a node the record's number, with its birth above it where records are used again, for a leaf its serial and its
    /// weight.
    pub word: u64,
    /// The index of the left child's entry in its history.
    pub left: u64,
    /// The index of the right child's entry in its history.
    pub right: u64,
    /// The index of the left child's newest entry when this one was published.
    pub left_floor: u64,
    /// The index of the right child's newest entry when this one was published.
    pub right_floor: u64,
    /// What the key of a leaf weighs there; 0 if it is no member, and for a node.
    pub weight: u64,
    /// Whether the leaf went past this serial in the very step that brought it, so that no word ever named it.
    pub passed: bool,
    /// The era in which the record was made; 0 where no record is used again, and for a leaf.
    pub birth: u64,
    /// The lane from which it was published; 0 at the opening, and for a leaf.
    pub maker: u64,
    /// The members below, rising, each with its weight.
    pub pairs: LinkedList<(u64, u64)>,
    /// The record's words.
    pub words: LinkedList<u64>,
}

/// An accepted change: the key's serial went up to `serial`, and the key weighs `weight` there.
pub struct Change {
    pub key: u64,
    pub serial: u64,
    /// 0 for a removal.
    pub weight: u64,
}

/// What an exchange of a leaf's word is to do: from a serial and a weight to the next serial, or past it to the one after that.
pub struct Advance {
    pub serial: u64,
    pub weight: u64,
    /// Whether the key goes out and comes in again in the one step.
    pub replaces: bool,
    /// What the key weighs afterwards; 0 if it is no member.
    pub new_weight: u64,
}

/// How far a lane has come.
pub enum LaneState {
    /// Nobody took it yet.
    Free,
    /// A pass took it.
    Taken,
    /// Its pass came back.
    Ended,
}

/// How the record of an entry came to be used again: when it was made, and when its last reader can have reserved it.
pub struct Life {
    /// The era in which it was made.
    pub birth: u64,
    /// The era that was found once the root showed a later entry.
    pub death: u64,
    /// How many reservations were found since, from the first one on, that do not hold it.
    pub scanned: u64,
}

/// A record that a lane owns: no node names it, and only the lane's holder writes it, once all reservations were found not to hold it.
pub struct Owned {
    pub number: u64,
    pub words: LinkedList<u64>,
    pub life: Life,
}

/// An entry of an inner node that a lane's holder replaced, and whose record it will own once the root shows a later one.
pub struct Replaced {
    pub place: u64,
    pub index: u64,
    pub number: u64,
    pub birth: u64,
    pub words: LinkedList<u64>,
}

/// What a seat reserved: while it stands, no record is written that the seat may read.
pub struct Reserved {
    /// The place of the reservation among all, one of those of the seat's lane.
    pub slot: u64,
    /// The era that was reserved.
    pub era: u64,
    /// For each leaf and inner node, the first of its entries whose records are held, of those that were made by then.
    pub floors: LinkedList<u64>,
}

/// A lane that a view holds.
pub struct Held {
    pub lane: u64,
    /// What the lane's word says.
    pub state: LaneState,
    /// The records that it owns.
    pub owned: LinkedList<Owned>,
    /// The entries that were replaced from it, and whose records it does not own yet.
    pub replaced: LinkedList<Replaced>,
    /// The changes that were accepted from the lane's holder, the newest last.
    pub changes: LinkedList<Change>,
}

/// The beginning of an update: what the seat knew when it made the update's first step.
pub struct Beginning {
    /// The book as far as it had been seen.
    pub seen: LinkedList<LinkedList<Entry>>,
    /// The steps that had been made.
    pub steps: LinkedList<StepTaken>,
    /// The changes that had been accepted.
    pub changes: LinkedList<Change>,
}

/// An era of a table that is over.
pub struct PastEra {
    /// The keys that were there when the table was opened, rising, each with its weight.
    pub members: LinkedList<(u64, u64)>,
    /// The book with which it ended.
    pub book: LinkedList<LinkedList<Entry>>,
}

/// What a note tells: what its maker knew.
pub struct Learnt {
    /// How often the table had been renewed.
    pub era: u64,
    /// How the table is laid out.
    pub shape: Layout,
    /// The eras before.
    pub past: LinkedList<PastEra>,
    /// The keys that were there when the table was opened last, rising, each with its weight.
    pub members: LinkedList<(u64, u64)>,
    /// The book as far as it was seen.
    pub seen: LinkedList<LinkedList<Entry>>,
}

/// What a seat knows of a table.
pub struct SeatView {
    /// False once another seat took it in.
    pub live: bool,
    /// How often the table had been renewed when the seat came to it, or renewed it itself.
    pub era: u64,
    /// The eras before this one, the first one first.
    pub past: LinkedList<PastEra>,
    /// How the table is laid out.
    pub shape: Layout,
    /// The first word of the part of the table that was opened last, where it works.
    pub base: u64,
    /// The keys that were there when it was opened last, rising, each with its weight.
    pub members: LinkedList<(u64, u64)>,
    /// The book as far as it was seen: for each leaf and inner node its entries.
    pub seen: LinkedList<LinkedList<Entry>>,
    /// What the seat that was joined last had seen of this era.
    pub also: LinkedList<LinkedList<Entry>>,
    /// What the note told that was taken in last.
    pub told: Option<Learnt>,
    /// The lanes that the seat holds: that of a pass, and those of the passes that were joined into a lead.
    pub held: LinkedList<Held>,
    /// The first lane that was not handed out, if the seat is the one that hands lanes out.
    pub spare: Option<u64>,
    /// Whether the seat is a reader: it holds no lane, and may load words of the records that it has seen for as long as it lives.
    pub reads: bool,
    /// For each reader that the seat answers for, the first word of the part where that one reads.
    pub lent: LinkedList<u64>,
    /// The words of that part as they were when the seat opened it. None, if the table was not renewed: then the records of its lanes were blank.
    pub words: LinkedList<u64>,
    /// The words of the whole table, as they are now but for those of the part at work, while the seat hands lanes out.
    pub whole: LinkedList<u64>,
    /// What it reserved, in a table that uses records again.
    pub reserved: LinkedList<Reserved>,
    /// An era that the table has reached.
    pub reached: u64,
    /// The beginning of the update that the seat is in, or was in last.
    pub began: Beginning,
    /// The seat's steps, the last one last.
    pub steps: LinkedList<StepTaken>,
}
