//! The way of whole texts into a sink.
ghost use Rattle.std.specs.Prelude.{◌≡◌, ◌-◌, ◌^◌, ◌<◌, OnOk, OnErr};
ghost use Rattle.aug_script.specs.Devices.{Writes, WritesBeginning};

use crate::{Fault, Sink};

/// Gives `bytes` to the sink until all are taken, and then calls `finish` once. The first fault ends it.
pub fn send<W: Sink>(bytes: &[u8], sink: &mut W) -> Result<(), Fault>
    requires { (W.state sink.old).faults < 2 ^ 64 - 1 }
    ensures ok { OnOk result (Writes (W.state sink.old) (W.state sink.new) bytes.now 1) }
    ensures err { OnErr result (WritesBeginning (W.state sink.old) (W.state sink.new) bytes.now) }
{
    write_pieces(bytes, sink)?;
    sink.finish()
}

// Gives `bytes` to the sink until all are taken. The first fault ends it.
fn write_pieces<W: Sink>(bytes: &[u8], sink: &mut W) -> Result<(), Fault>
    requires { (W.state sink.old).faults < 2 ^ 64 - 1 }
    ensures ok { OnOk result (Writes (W.state sink.old) (W.state sink.new) bytes.now 0) }
    ensures err { OnErr result (WritesBeginning (W.state sink.old) (W.state sink.new) bytes.now) }
    ensures unfinished { (W.state sink.new).finishes ≡ (W.state sink.old).finishes }
{
    let mut taken = 0;
    while taken < bytes.len() {
        taken += sink.write_some(&bytes[taken..])?;
    }
    Ok(())
}
