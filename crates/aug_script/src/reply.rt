ghost use Rattle.std.specs.Prelude.{◌≡◌};

use aug_model::Summary;
use aug_monoid::{Extent, Sum};
use std::fmt;

/// What a row is answered.
#[derive(Clone, Copy, Debug, PartialEq, Eq)]
pub enum Reply {
    /// An insertion was accepted, or a put that found the key not in.
    New,
    /// An insertion was refused: the key was in.
    Old,
    /// A put was accepted that found the key in: it has the new weight. That is a removal and an insertion in one.
    Set,
    /// A put was refused: another update of the key came first.
    Lost,
    /// A removal was accepted.
    Gone,
    /// A removal was refused: the key was not in.
    Absent,
    /// A new snapshot was taken.
    Looked,
    /// The key is a member.
    Yes,
    /// The key is no member.
    No,
    /// The number that was asked for.
    Number(u32),
    /// The member or the weight that was asked for, if there is one.
    Found(Option<u32>),
    /// What was asked of the members in a range.
    Span(Summary<Sum, Extent>),
}

impl Reply {
    ghost use Rattle.aug_script.specs.Replies.{is_insertion as is_insertion_reply, is_removal as is_removal_reply};

    /// Whether an insertion was accepted, be it that of a replacement.
    pub fn is_insertion(&self) -> bool
        ensures { result ≡ is_insertion_reply self.now }
    {
        matches!(self, Reply::New | Reply::Set)
    }

    /// Whether a removal was accepted, be it that of a replacement.
    pub fn is_removal(&self) -> bool
        ensures { result ≡ is_removal_reply self.now }
    {
        matches!(self, Reply::Gone | Reply::Set)
    }
}

impl fmt::Display for Reply {
    ghost use Rattle.std.specs.Prelude.{Some};
    ghost use Rattle.aug_script.specs.ReportText.{reply_text};

    ghost output = { λ reply. Some (reply_text reply) };

    fn fmt<W: fmt::Write>(&self, f: &mut fmt::Formatter<W>) -> fmt::Result {
        match self {
            Reply::New => write!(f, "new"),
            Reply::Old => write!(f, "old"),
            Reply::Set => write!(f, "set"),
            Reply::Lost => write!(f, "lost"),
            Reply::Gone => write!(f, "gone"),
            Reply::Absent => write!(f, "none"),
            Reply::Looked => write!(f, "ok"),
            Reply::Yes => write!(f, "yes"),
            Reply::No => write!(f, "no"),
            Reply::Number(number) => write!(f, "{number}"),
            Reply::Found(Some(number)) => write!(f, "{number}"),
            Reply::Found(None) => write!(f, "-"),
            Reply::Span(summary) => {
                let count = summary.count;
                let sum = summary.a.value();
                match summary.b.bounds() {
                    Some((least, greatest)) => write!(f, "{count} {sum} {least} {greatest}"),
                    None => write!(f, "{count} {sum} - -"),
                }
            }
        }
    }
}
