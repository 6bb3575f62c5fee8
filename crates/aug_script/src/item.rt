ghost use Rattle.std.specs.Prelude.{◌≡◌};

use crate::{Row, Verb};

/// What a record of a script is read as.
#[derive(Clone, Copy, Debug, PartialEq, Eq)]
pub(crate) enum Item {
    /// A row of the round that is open.
    Row(Row),
    /// The end of that round.
    End,
    /// The number of bits that keys have from that round on.
    Grow(u32),
}

impl Item {
    ghost use Rattle.std.specs.Prelude.{[], ◌∷◌, find, length, map};
    ghost use Rattle.std.specs.Str.{bytes_eq};
    ghost use Rattle.aug_script.specs.Script.{item_written, verbs_with};
    ghost use Rattle.aug_script.specs.declared.item.Item.TheVariants as item;

    /// What a word behind a `*` names, with its argument from a number, if it names something.
    pub(crate) fn starred(word: &[u8], bits: u32) -> Option<Item>
        ensures { result ≡ find (λ next. bytes_eq word.now (item_written next).0) (item.End ∷ item.Grow bits ∷ []) }
    {
        if word == b"end".as_slice() {
            Some(Item::End)
        } else if word == b"grow".as_slice() {
            Some(Item::Grow(bits))
        } else {
            None
        }
    }

    /// The row with this number, in this lane, whose verb a word names, with its arguments from two numbers, if it names one.
    pub(crate) fn in_lane(row: u64, lane: u32, word: &[u8], a: u32, b: u32) -> Option<Item>
        ensures { result ≡ find (λ next. bytes_eq word.now (item_written next).0) (map (λ asked. item.Row (record { row = row; lane = lane; verb = asked })) (verbs_with a b)) }
    {
        let verb = Verb::named(word, a, b)?;
        Some(Item::Row(Row { row, lane, verb }))
    }

    /// How many arguments it has.
    pub(crate) fn arity(self) -> usize
        ensures { result ≡ length (item_written self).1 }
    {
        match self {
            Item::Row(row) => row.verb.arity(),
            Item::End => 0,
            Item::Grow(_) => 1,
        }
    }
}
