//! A whole script, from its bytes to its printed reports.
ghost use Rattle.std.specs.Prelude.{◌≡◌, ◌≢◌, ℕ, ◌-◌, ◌^◌, ◌<◌, ◌≤◌, ◌↔◌, ◌⊎◌, All, Err, IfErr, IfOk, IfSome, List, OnErr, OnOk, Some, [], ◌∷◌, length};
ghost use Rattle.aug_script.specs.Devices.{SinkState, WritesBeginning};
ghost use Rattle.aug_script.specs.ReportText.{report_text};
ghost use Rattle.aug_script.specs.Script.{IsRunnable, NeverNarrows};
ghost use Rattle.aug_script.specs.declared.report.Report.{Report};
ghost use Rattle.aug_run.specs.Program.{FailsBy};
ghost use Rattle.aug_command.specs.Reading.{script_limit};
ghost use Rattle.aug_run.specs.Runs.{Prints, RunsWhole};

use crate::gate::Open;
use crate::round::run_round;
use crate::trie::Trie;
use aug_command::{PrintError, ReadError, RunError, print, read_all};
use aug_script::{Limits, Script, ScriptError, ScriptRound, Sink, Source};
use aug_trie::{BeginError, Ended};
use std::alloc::{AllocError, Global};
use std::sync::Wait;
use std::thread::Threads;

/// Reads the whole script, judges every row, and then runs round after round, each with a worker thread for every lane;
/// its report is written before the next round begins. Nothing is written unless the whole script was read and has no
/// fault. The clauses about the bytes are for a source and a sink that show their bytes.
pub fn run<R: Threads + Wait, S: Source, W: Sink>(
    rt: &R,
    alloc: Global,
    source: &mut S,
    sink: &mut W,
    limits: &Limits,
) -> Result<(), RunError>
    requires source { S.fault_count source.old < 2 ^ 64 - 1 }
    requires sink { (W.state sink.old).faults < 2 ^ 64 - 1 }
    ensures ok { OnOk result (IfSome (S.remaining source.old) (RunsWhole limits.now (W.state sink.old) (W.state sink.new))) }
    ensures err { IfErr result (FailsBy limits.now (W.state sink.old) (W.state sink.new) (S.remaining source.old)) }
    ensures named { result ≢ Err (RunError.Script ScriptError.OutOfMemory) }
    ensures input { result ≡ Err RunError.Input ↔ (S.fault_count source.old < S.fault_count source.new) }
    ensures output { result ≡ Err RunError.Output ↔ ((W.state sink.old).faults < (W.state sink.new).faults) }
    ensures nothing { IfErr result (λ error. error ≢ RunError.Output → error ≢ RunError.OutOfMemory → sink.new ≡ sink.old) }
{
    let bytes = match read_all(alloc, source) {
        Ok(bytes) => bytes,
        Err(ReadError::Input) => return Err(RunError::Input),
        Err(ReadError::OutOfMemory) => return Err(RunError::OutOfMemory),
        Err(ReadError::TooLong) => return Err(RunError::TooLong),
    };
    run_bytes(rt, alloc, bytes.as_slice(), sink, limits)
}

/// The same for the bytes of a script.
fn run_bytes<R: Threads + Wait, W: Sink>(
    rt: &R,
    alloc: Global,
    bytes: &[u8],
    sink: &mut W,
    limits: &Limits,
) -> Result<(), RunError>
    requires fits { length bytes.now ≤ script_limit }
    requires sink { (W.state sink.old).faults < 2 ^ 64 - 1 }
    ensures ok { OnOk result (RunsWhole limits.now (W.state sink.old) (W.state sink.new) bytes.now) }
    ensures err { IfErr result (FailsBy limits.now (W.state sink.old) (W.state sink.new) (Some bytes.now)) }
    ensures named { result ≢ Err (RunError.Script ScriptError.OutOfMemory) }
    ensures fits { (result ≢ Err RunError.TooLong) × (result ≢ Err RunError.Input) }
    ensures output { result ≡ Err RunError.Output ↔ ((W.state sink.old).faults < (W.state sink.new).faults) }
    ensures nothing { IfErr result (λ error. error ≢ RunError.Output → error ≢ RunError.OutOfMemory → sink.new ≡ sink.old) }
{
    let script = match Script::read(alloc, bytes, limits) {
        Ok(script) => script,
        Err(ScriptError::OutOfMemory) => return Err(RunError::OutOfMemory),
        Err(fault) => return Err(RunError::Script(fault)),
    };
    run_rounds(rt, alloc, script.rounds(), sink, limits)
}

/// Runs rounds one after the other, each with its own bits, over a set that is empty at first, and writes each report before the
/// next round.
fn run_rounds<R: Threads + Wait, W: Sink>(
    rt: &R,
    alloc: Global,
    rounds: &[ScriptRound],
    sink: &mut W,
    limits: &Limits,
) -> Result<(), RunError>
    requires kept { All (IsRunnable limits.now) rounds.now }
    requires never_narrows { NeverNarrows rounds.now }
    requires sink { (W.state sink.old).faults < 2 ^ 64 - 1 }
    ensures ok { OnOk result ((reports : List Report) × Prints limits.now rounds.now reports [] (W.state sink.old) (W.state sink.new) × (length reports ≡ length rounds.now)) }
    ensures named { OnErr result ((result ≡ Err RunError.Output) ⊎ (result ≡ Err RunError.OutOfMemory)) }
    ensures memory { result ≡ Err RunError.OutOfMemory → (reports : List Report) × Prints limits.now rounds.now reports [] (W.state sink.old) (W.state sink.new) }
    ensures output { result ≡ Err RunError.Output ↔ ((W.state sink.old).faults < (W.state sink.new).faults) }
    ensures part { result ≡ Err RunError.Output → (reports : List Report) × (broken : Report) × (between : SinkState)
        × Prints limits.now rounds.now reports (broken ∷ []) (W.state sink.old) between × WritesBeginning between (W.state sink.new) (report_text broken) }
{
    let Ok(empty) = empty_trie(alloc, limits) else {
        return Err(RunError::OutOfMemory);
    };
    let mut ended = empty;
    let mut number = 1;
    for round in rounds {
        let (next, report) = run_round(rt, alloc, ended, limits, number, round, &Open)?;
        ended = next;
        match print(alloc, &report, sink) {
            Ok(()) => number += 1,
            Err(PrintError::Output) => return Err(RunError::Output),
            Err(PrintError::OutOfMemory) => return Err(RunError::OutOfMemory),
        }
    }
    Ok(())
}

// The trie that the first round begins with. It is refused for want of memory alone.
fn empty_trie(alloc: Global, limits: &Limits) -> Result<Trie, AllocError>
    ensures bits { IfOk result (λ t. t.bits ≡ limits.now.bits) }
    ensures empty { IfOk result (λ t. t.members ≡ []) }
{
    match Ended::empty(alloc, limits.bits()) {
        Ok(ended) => Ok(ended),
        Err(BeginError::OutOfMemory) => Err(AllocError),
        Err(_) => unreachable!(),
    }
}
