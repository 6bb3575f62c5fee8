//! The five words of a record.
ghost use Rattle.std.specs.Prelude.{◌≡◌, ◌<◌};
ghost use Rattle.aug_core.specs.Fields.{field_offset};
ghost use Rattle.aug_core.specs.Places.{record_words};

/// How many words a record has.
pub const RECORD_WORDS: usize = 5;

/// The five words of a record, in their order.
#[derive(Clone, Copy, Debug, PartialEq, Eq)]
pub enum RecordField {
    /// The word that names the left child's version: its record's number, or the leaf's word if the child is a leaf.
    Left,
    /// The word that names the right child's version.
    Right,
    /// How many keys are there below.
    Count,
    /// The word of these keys' fold in the first monoid.
    A,
    /// The word of their fold in the second monoid.
    B,
}

impl RecordField {
    /// How many words of the record stand before this one.
    #[inline(always)]
    pub fn offset(self) -> usize
        ensures value { result ≡ field_offset self }
        ensures small { result < record_words }
    {
        match self {
            RecordField::Left => 0,
            RecordField::Right => 1,
            RecordField::Count => 2,
            RecordField::A => 3,
            RecordField::B => 4,
        }
    }
}
