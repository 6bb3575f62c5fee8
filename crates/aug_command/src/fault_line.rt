//! The lines of faults, made in no memory.
ghost use Rattle.std.specs.Prelude.{◌≡◌, ◌≤◌, length};
ghost use Rattle.aug_command.specs.Faults.{fault_line};

use arrayvec::ArrayString;

// How long a fault's text is at most, as that of `row 18446744073709551615: TooManyUpdates`.
const TEXT: usize = 40;

// A text with `augtrie: ` before it and a line's end after it.
const LINE: usize = 50;

/// A line of standard error, with its end.
pub(crate) type FaultLine = ArrayString<LINE>;

/// The line of a fault.
pub(crate) fn fault_line(text: &str) -> FaultLine
    requires { length text.now ≤ TEXT }
    ensures { result.bytes ≡ fault_line text.now }
{
    let mut line = ArrayString::new();
    line.push_str("augtrie: ");
    line.push_str(text);
    line.push_str("\n");
    line
}
