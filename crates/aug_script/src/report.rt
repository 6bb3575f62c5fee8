ghost use Rattle.std.specs.Prelude.{◌≡◌, ◌++◌, IfOk, OnOk, string_bytes};
ghost use Rattle.aug_script.specs.ReportText.{end_text, line_text, report_text};

use crate::{Listed, Reply, Row};
use std::alloc::{AllocError, Global};

/// What a round did: its rows with their replies, in the order of the script, and its totals.
#[derive(Debug, Drop)]
pub struct Report {
    /// The round's number, counted from 1.
    pub number: u64,
    /// Each row of the round with its reply, in the order of the script.
    pub rows: Listed<(Row, Reply)>,
    /// How many members the set has at the round's end.
    pub size: u32,
    /// How many insertions were accepted. A replacement is one.
    pub inserts: u32,
    /// How many removals were accepted. A replacement is one.
    pub removals: u32,
}

impl Report {
    /// The whole text: a line for each row, and then the totals.
    pub fn text(&self, alloc: Global) -> Result<String, AllocError>
        ensures { IfOk result (λ text. string_bytes text ≡ report_text self.now) }
    {
        let mut text = String::new(alloc);
        for line in self.rows.as_slice() {
            write_line(&mut text, self.number, line)?;
        }
        self.write_end(&mut text)?;
        Ok(text)
    }

    fn write_end(&self, text: &mut String) -> Result<(), AllocError>
        ensures { OnOk result (string_bytes text.new ≡ string_bytes text.old ++ end_text self.now) }
    {
        let number = self.number;
        let size = self.size;
        let inserts = self.inserts;
        let removals = self.removals;
        writeln!(text, "{number} end size={size} in={inserts} out={removals}")
    }
}

fn write_line(text: &mut String, number: u64, line: &(Row, Reply)) -> Result<(), AllocError>
    ensures { OnOk result (string_bytes text.new ≡ string_bytes text.old ++ line_text number line.now) }
{
    let (row, reply) = line;
    let lane = row.lane;
    let verb = row.verb;
    writeln!(text, "{number} {lane} {verb} = {reply}")
}
