//! The program over devices: which stream each text goes to, and the status that the program ends with.
ghost use Rattle.std.specs.Prelude.{◌≡◌, ◌≢◌, ◌==◌, ◌-◌, ◌^◌, ◌<◌, ◌↔◌, Err, IfErr, IfOk, IfSome, MatchBool, OnOk, string_bytes};
ghost use Rattle.std.specs.Option.{option_map_or};
ghost use Rattle.aug_command.specs.Faults.{fault_line, run_ending, stop_ending};
ghost use Rattle.aug_run.specs.Program.{FailsBy, ShowsText};
ghost use Rattle.aug_run.specs.Runs.{RunsWhole};
ghost use Rattle.aug_command.specs.declared.run_error.RunError.{RunError};

use crate::script::run;
use aug_command::{Input, Options, RunError, Stop};
use aug_script::Sink;
use std::alloc::Global;
use std::sync::Wait;
use std::thread::Threads;

/// Does what the command line asks for, and answers the status that the program ends with. If the command line stops the program,
/// that is reported before the input is touched. Reports and the text of help go to `output`, the line of a fault to `errors`; a
/// failure to write such a line, or the text of help, changes no status.
pub fn carry_out<R: Threads + Wait, I: Input, O: Sink, E: Sink>(
    rt: &R,
    alloc: Global,
    asked: Result<Options, Stop>,
    input: &mut I,
    output: &mut O,
    errors: &mut E,
) -> u8
    requires input { I.Source.fault_count input.old < 2 ^ 64 - 1 }
    requires output { (O.state output.old).faults < 2 ^ 64 - 1 }
    requires errors { (E.state errors.old).faults < 2 ^ 64 - 1 }

    // If the command line stops the program.
    ensures status { IfErr asked (λ stop. result ≡ (stop_ending fault_line stop).0) }
    ensures unread { IfErr asked (λ stop. input.new ≡ input.old) }
    ensures help { IfErr asked (λ stop. MatchBool (result == 0)
        (ShowsText (O.state output.old) (O.state output.new) (stop_ending fault_line stop).1)
        (output.new ≡ output.old)) }
    ensures usage { IfErr asked (λ stop. MatchBool (result == 0)
        (errors.new ≡ errors.old)
        (ShowsText (E.state errors.old) (E.state errors.new) (stop_ending fault_line stop).1)) }

    // If a script is run.
    ensures done { IfOk asked (λ options. result ≡ 0 → (errors.new ≡ errors.old) × IfSome (option_map_or (λ path. I.file_bytes input.old (string_bytes path)) options.file (I.Source.remaining input.old))
        (RunsWhole options.limits (O.state output.old) (O.state output.new))) }
    ensures failed { IfOk asked (λ options. result ≢ 0 → (error : RunError) × (result ≡ (run_ending error).0)
        × ShowsText (E.state errors.old) (E.state errors.new) (fault_line (run_ending error).1)
        × FailsBy options.limits (O.state output.old) (O.state output.new) (option_map_or (λ path. I.file_bytes input.old (string_bytes path)) options.file (I.Source.remaining input.old)) error
        × (error ≢ RunError.Output → error ≢ RunError.OutOfMemory → output.new ≡ output.old)
        × (error ≡ RunError.Input ↔ (I.Source.fault_count input.old < I.Source.fault_count input.new))
        × (error ≡ RunError.Output ↔ ((O.state output.old).faults < (O.state output.new).faults))) }
{
    match asked {
        Ok(options) => match run_script(rt, alloc, &options, input, output) {
            Ok(()) => 0,
            Err(error) => show_error(&error, errors),
        },
        Err(stop) => show_stop(&stop, output, errors),
    }
}

// Runs the script of the file, or without one that of standard input.
fn run_script<R: Threads + Wait, I: Input, O: Sink>(
    rt: &R,
    alloc: Global,
    options: &Options,
    input: &mut I,
    output: &mut O,
) -> Result<(), RunError>
    requires input { I.Source.fault_count input.old < 2 ^ 64 - 1 }
    requires output { (O.state output.old).faults < 2 ^ 64 - 1 }
    ensures ok { OnOk result (IfSome (option_map_or (λ path. I.file_bytes input.old (string_bytes path)) options.now.file (I.Source.remaining input.old))
        (RunsWhole options.now.limits (O.state output.old) (O.state output.new))) }
    ensures err { IfErr result (FailsBy options.now.limits (O.state output.old) (O.state output.new) (option_map_or (λ path. I.file_bytes input.old (string_bytes path)) options.now.file (I.Source.remaining input.old))) }
    ensures input { result ≡ Err RunError.Input ↔ (I.Source.fault_count input.old < I.Source.fault_count input.new) }
    ensures output { result ≡ Err RunError.Output ↔ ((O.state output.old).faults < (O.state output.new).faults) }
    ensures nothing { IfErr result (λ error. error ≢ RunError.Output → error ≢ RunError.OutOfMemory → output.new ≡ output.old) }
{
    if let Some(path) = &options.file {
        if input.open(path.as_str()).is_err() {
            return Err(RunError::Input);
        }
    }
    run(rt, alloc, input, output, &options.limits)
}

// Shows why the command line ends the program: help goes to the output, all else to the errors.
fn show_stop<O: Sink, E: Sink>(stop: &Stop, output: &mut O, errors: &mut E) -> u8
    requires output { (O.state output.old).faults < 2 ^ 64 - 1 }
    requires errors { (E.state errors.old).faults < 2 ^ 64 - 1 }
    ensures status { result ≡ (stop_ending fault_line stop.now).0 }
    ensures help { MatchBool (result == 0)
        (ShowsText (O.state output.old) (O.state output.new) (stop_ending fault_line stop.now).1)
        (output.new ≡ output.old) }
    ensures usage { MatchBool (result == 0)
        (errors.new ≡ errors.old)
        (ShowsText (E.state errors.old) (E.state errors.new) (stop_ending fault_line stop.now).1) }
{
    let _ = match stop {
        Stop::Help(_) => stop.write_line(output),
        _ => stop.write_line(errors),
    };
    stop.status()
}

// Shows why the script was not run to its end.
fn show_error<E: Sink>(error: &RunError, errors: &mut E) -> u8
    requires { (E.state errors.old).faults < 2 ^ 64 - 1 }
    ensures status { result ≡ (run_ending error.now).0 }
    ensures shown { ShowsText (E.state errors.old) (E.state errors.new) (fault_line (run_ending error.now).1) }
{
    let _ = error.write_line(errors);
    error.status()
}
