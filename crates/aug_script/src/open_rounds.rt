//! The rounds of a script while it is read.
ghost use Rattle.std.specs.Prelude.{◌≡◌, ◌+◌, ◌-◌, ◌^◌, ◌<◌, ◌≤◌, ◌==◌, IfOk, OnOk, length};
ghost use Rattle.aug_script.specs.inside.Items.{CanTake, nothing_read};
ghost use Rattle.aug_script.specs.Script.{rounds_read, updates_of, with_item};
ghost use Rattle.aug_script.specs.declared.item.Item.TheVariants as item;

use crate::{Item, Listed, Row, ScriptRound};
use std::alloc::{AllocError, Global};
use std::marker::Model;
use std::mem;

/// The most lanes that a round has.
const LANES: usize = 64;

/// The rounds that were closed, and the bits and the rows of the one that is open.
#[derive(Drop)]
pub(crate) struct OpenRounds {
    closed: Vec<ScriptRound>,
    bits: u32,
    rows: Vec<Row>,
    /// How many of these rows are updates of each lane.
    updates: [usize; LANES],
    /// The number of the row that comes next.
    next: u64,
}

impl Model for OpenRounds {
    ghost use Rattle.aug_script.specs.Script.{Progress};
    ghost use Rattle.aug_script.specs.inside.Items.{KeepsRounds};

    ghost Value = { Progress };

    ghost view = { λ r. record { next = r.next; bits = r.bits; rows = r.rows.items; closed = r.closed.items } };

    ghost invariant = { λ r. KeepsRounds r.bits r.updates r.rows.items };
}

impl OpenRounds {
    /// No rounds yet, and keys of `bits` bits.
    pub(crate) fn new(alloc: Global, bits: u32) -> OpenRounds
        requires { bits ≤ 16 }
        ensures { result ≡ nothing_read bits }
    {
        OpenRounds {
            closed: Vec::new(alloc),
            bits,
            rows: Vec::new(alloc),
            updates: [0; LANES],
            next: 1,
        }
    }

    /// The number of the row that comes next.
    pub(crate) fn next_number(&self) -> u64
        ensures { result ≡ self.now.next }
    {
        self.next
    }

    /// How many bits the keys of the open round have.
    pub(crate) fn bits(&self) -> u32
        ensures value { result ≡ self.now.bits }
        ensures most { result ≤ 16 }
    {
        self.bits
    }

    /// Whether the open round has no rows yet.
    pub(crate) fn is_empty(&self) -> bool
        ensures { result ≡ (length self.now.rows == 0) }
    {
        self.rows.is_empty()
    }

    /// How many of the open round's rows are updates of a lane.
    pub(crate) fn updates(&self, lane: u32) -> usize
        requires { lane < 64 }
        ensures { result ≡ updates_of lane self.now.rows }
    {
        self.updates[lane as usize]
    }

    /// Puts a row behind those of the open round, or closes that round and opens the next, or gives keys more bits.
    pub(crate) fn take(&mut self, alloc: Global, item: Item) -> Result<(), AllocError>
        requires can { CanTake item }
        requires number { self.old.next < 2 ^ 64 - 1 }
        ensures { OnOk result (self.new ≡ with_item self.old item) }
    {
        match item {
            Item::Row(row) => self.push(row),
            Item::End => self.close(alloc),
            Item::Grow(bits) => {
                self.grow(bits);
                Ok(())
            }
        }
    }

    // One more row of the open round.
    fn push(&mut self, row: Row) -> Result<(), AllocError>
        requires lane { row.lane < 64 }
        requires number { self.old.next < 2 ^ 64 - 1 }
        ensures { OnOk result (self.new ≡ with_item self.old (item.Row row)) }
    {
        self.rows.push(row)?;
        if row.verb.is_update() {
            self.updates[row.lane as usize] += 1;
        }
        self.next += 1;
        Ok(())
    }

    // The open round is closed, and the next one has no rows yet.
    fn close(&mut self, alloc: Global) -> Result<(), AllocError>
        requires { self.old.next < 2 ^ 64 - 1 }
        ensures { OnOk result (self.new ≡ with_item self.old item.End) }
    {
        let rows = mem::replace(&mut self.rows, Vec::new(alloc));
        self.updates = [0; LANES];
        let bits = self.bits;
        let rows = Listed::from_vec(rows);
        self.closed.push(ScriptRound { bits, rows })?;
        self.next += 1;
        Ok(())
    }

    // From the open round on, keys have `bits` bits.
    fn grow(&mut self, bits: u32)
        requires most { bits ≤ 16 }
        requires number { self.old.next < 2 ^ 64 - 1 }
        ensures { self.new ≡ with_item self.old (item.Grow bits) }
    {
        self.bits = bits;
        self.next += 1;
    }

    /// All rounds. The open one is the last if it has rows.
    pub(crate) fn into_rounds(self) -> Result<Vec<ScriptRound>, AllocError>
        ensures { IfOk result (λ rounds. rounds.items ≡ rounds_read self) }
    {
        let mut rounds = self.closed;
        if !self.rows.is_empty() {
            let bits = self.bits;
            let rows = Listed::from_vec(self.rows);
            rounds.push(ScriptRound { bits, rows })?;
        }
        Ok(rounds)
    }
}
