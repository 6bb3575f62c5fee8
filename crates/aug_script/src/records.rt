//! The records of a script, one after the other, as `csv` reads them.
ghost use Rattle.std.specs.Prelude.{◌≡◌, ◌∷◌, [], true, false, IfOk, MatchBool};
ghost use Rattle.csv.specs.Records.{fields_of};
ghost use Rattle.aug_script.specs.Script.{records_of};

use csv::{ByteRecord, Reader, ReaderBuilder};
use std::alloc::{AllocError, Global};
use std::marker::Model;

/// The records of a text that were not read yet.
#[derive(Drop)]
pub(crate) struct Records<'a> {
    reader: Reader<&'a [u8]>,
    /// The last record was read, or memory was refused.
    done: bool,
}

impl<'a> Model for Records<'a> {
    ghost use Rattle.std.specs.Prelude.{◌≡◌, false, ℕ, List};
    ghost use Rattle.aug_script.specs.inside.RecordsLeft.{IsReading, records_left};

    ghost Value = { List (List (List ℕ)) };

    ghost view = { λ r. records_left r.done r.reader };

    ghost invariant = { λ r. r.done ≡ false → IsReading r.reader };
}

impl<'a> Records<'a> {
    pub(crate) fn new(alloc: Global, bytes: &'a [u8]) -> Records<'a>
        ensures { result ≡ records_of bytes.now }
    {
        let reader = ReaderBuilder::new()
            .has_headers(false)
            .flexible(true)
            .from_reader(alloc, bytes);
        Records {
            reader,
            done: false,
        }
    }

    /// Reads the next record into `row`, and answers whether there was one. Only memory can be refused.
    pub(crate) fn next(&mut self, row: &mut ByteRecord) -> Result<bool, AllocError>
        ensures { IfOk result (λ found. MatchBool found (self.old ≡ fields_of row.new ∷ self.new) (self.old ≡ [])) }
    {
        if self.done {
            return Ok(false);
        }
        match self.reader.read_byte_record(row) {
            Ok(true) => Ok(true),
            Ok(false) => {
                self.done = true;
                Ok(false)
            }
            Err(_) => {
                self.done = true;
                Err(AllocError)
            }
        }
    }
}
