//! The texts of a script's faults, made in no memory.
ghost use Rattle.std.specs.Prelude.{◌≡◌, ◌≤◌, codes, length};
ghost use Rattle.aug_script.specs.FaultText.{row_text as text_of_row};

use arrayvec::ArrayString;
use itoa::Buffer;

// The longest text and the longest name of a fault, those of `row 18446744073709551615: TooManyUpdates`.
const TEXT: usize = 40;

const NAME: usize = 14;

/// The text of a fault.
pub type FaultText = ArrayString<TEXT>;

/// The text of a fault of this name in the script's row of this number.
pub(crate) fn row_text(row: u64, name: &str) -> FaultText
    requires { length name.now ≤ NAME }
    ensures { result.bytes ≡ text_of_row row name.now }
{
    let mut number = Buffer::new();
    let mut text = ArrayString::new();
    text.push_str("row ");
    text.push_str(number.format(row));
    text.push_str(": ");
    text.push_str(name);
    text
}

/// The text for lack of memory, which has no row.
pub(crate) fn memory_text() -> FaultText
    ensures { result.bytes ≡ codes "memory" }
{
    let mut text = ArrayString::new();
    text.push_str("memory");
    text
}
