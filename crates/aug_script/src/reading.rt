//! Scripts read from their bytes.
ghost use Rattle.std.specs.Prelude.{◌≡◌, ◌≢◌, ◌+◌, ◌^◌, ◌<◌, ◌≤◌, All, Ok, Err, IfOk, IfErr, OnOk, length};
ghost use Rattle.aug_script.specs.Limits.{IsBounds};
ghost use Rattle.aug_script.specs.Script.{IsRunnable, NeverNarrows, read_from, records_of, rounds_of};
ghost use Rattle.aug_script.specs.inside.Items.{nothing_read};

use crate::judge::judge;
use crate::open_rounds::OpenRounds;
use crate::records::Records;
use crate::{Limits, ScriptError, ScriptRound};
use csv::ByteRecord;
use std::alloc::Global;
use std::marker::Model;

/// A script that was read: its rounds.
#[derive(Debug, Drop)]
pub struct Script {
    rounds: Vec<ScriptRound>,
}

impl Model for Script {
    ghost use Rattle.std.specs.Prelude.{List};
    ghost use Rattle.aug_script.specs.declared.script_round.ScriptRound.{ScriptRound};

    ghost Value = { List ScriptRound };

    ghost view = { λ s. s.rounds.items };
}

impl Script {
    /// Reads the bytes of a script under these limits. The first faulty row is answered with the first fault that
    /// it has; memory may be refused at any point.
    pub fn read(alloc: Global, bytes: &[u8], limits: &Limits) -> Result<Script, ScriptError>
        ensures ok { IfOk result (λ script. rounds_of limits.now bytes.now ≡ Ok script) }
        ensures fault { IfErr result (λ fault. fault ≢ ScriptError.OutOfMemory → rounds_of limits.now bytes.now ≡ Err fault) }

        // What `ok` comes to, for a caller that runs the rounds.
        ensures kept { IfOk result (λ script. All (IsRunnable limits.now) script) }
        ensures never_narrows { IfOk result (λ script. NeverNarrows script) }
        ensures few { IfOk result (λ script. All (λ round. length round.rows ≤ length bytes.now + 1) script) }
    {
        let read = read_rounds(alloc, bytes, limits)?;
        let rounds = read.into_rounds()?;
        Ok(Script { rounds })
    }

    /// The rounds, in order, each with its bits and its rows. Rows that end a round or give keys more bits are in
    /// none. An empty script has no round.
    pub fn rounds(&self) -> &[ScriptRound]
        ensures { result.now ≡ self.now }
    {
        self.rounds.as_slice()
    }
}

// What the records of a script are read as.
fn read_rounds(alloc: Global, bytes: &[u8], limits: &Limits) -> Result<OpenRounds, ScriptError>
    ensures bounds { IsBounds limits.now }
    ensures ok { IfOk result (λ read. read_from limits.now (nothing_read limits.now.bits) (records_of bytes.now) ≡ Ok read) }
    ensures fault { IfErr result (λ fault. fault ≢ ScriptError.OutOfMemory → read_from limits.now (nothing_read limits.now.bits) (records_of bytes.now) ≡ Err fault) }
{
    let mut rounds = OpenRounds::new(alloc, limits.bits());
    take_bytes(alloc, bytes, limits, &mut rounds)?;
    Ok(rounds)
}

// Takes all records of a script into the rounds.
fn take_bytes(
    alloc: Global,
    bytes: &[u8],
    limits: &Limits,
    rounds: &mut OpenRounds,
) -> Result<(), ScriptError>
    requires { rounds.old.next + length (records_of bytes.now) < 2 ^ 64 }
    ensures ok { OnOk result (read_from limits.now rounds.old (records_of bytes.now) ≡ Ok rounds.new) }
    ensures fault { IfErr result (λ fault. fault ≢ ScriptError.OutOfMemory → read_from limits.now rounds.old (records_of bytes.now) ≡ Err fault) }
{
    let mut records = Records::new(alloc, bytes);
    let mut fields = ByteRecord::new(alloc);
    take_records(alloc, limits, &mut records, &mut fields, rounds)
}

// Takes the records that are left, each in `fields`, into the rounds.
fn take_records(
    alloc: Global,
    limits: &Limits,
    records: &mut Records<'_>,
    fields: &mut ByteRecord,
    rounds: &mut OpenRounds,
) -> Result<(), ScriptError>
    requires { rounds.old.next + length records.old < 2 ^ 64 }
    ensures ok { OnOk result (read_from limits.now rounds.old records.old ≡ Ok rounds.new) }
    ensures fault { IfErr result (λ fault. fault ≢ ScriptError.OutOfMemory → read_from limits.now rounds.old records.old ≡ Err fault) }
{
    while records.next(fields)? {
        let item = judge(limits, rounds, fields)?;
        rounds.take(alloc, item)?;
    }
    Ok(())
}
