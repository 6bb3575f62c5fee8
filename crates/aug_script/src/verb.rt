ghost use Rattle.std.specs.Prelude.{◌≡◌, ◌≤◌};

use std::fmt;

/// What a row asks for. Keys are below `2^bits` in updates, in `has` and in `weight`; the arguments of the other queries are at
/// most `2^bits`. A weight is any number of a script. Queries are answered from the snapshot that the lane took last.
#[derive(Clone, Copy, Debug, PartialEq, Eq)]
pub enum Verb {
    /// Put a key in if it is not in. Its weight is then the key itself.
    Insert(u32),
    /// Give a key, the first number, a weight, the second, and put it in if it is not in.
    Put(u32, u32),
    /// Take a key out.
    Remove(u32),
    /// Take a new snapshot, from which the lane's queries are answered from now on.
    Look,
    /// Whether a key is a member.
    Has(u32),
    /// The weight of a key, if it is a member.
    Weight(u32),
    /// How many members there are.
    Size,
    /// How many members are below a key.
    Rank(u32),
    /// The member that has this many members below it, if there is one.
    Select(u32),
    /// The greatest member below a key, if there is one.
    Before(u32),
    /// The least member above a key, if there is one.
    After(u32),
    /// The number, the sum of the weights, the least and the greatest of the members from the first key on that are
    /// below the second.
    Range(u32, u32),
}

impl Verb {
    ghost use Rattle.std.specs.Prelude.{find, length};
    ghost use Rattle.std.specs.Str.{bytes_eq};
    ghost use Rattle.aug_script.specs.Script.{is_in_bounds as is_in_bounds_of, is_update as is_update_of, verbs_with, written};

    /// The verb that a word names, with its arguments from these two numbers, if it names one.
    pub(crate) fn named(word: &[u8], a: u32, b: u32) -> Option<Verb>
        ensures { result ≡ find (λ asked. bytes_eq word.now (written asked).0) (verbs_with a b) }
    {
        if word == b"insert".as_slice() {
            Some(Verb::Insert(a))
        } else if word == b"put".as_slice() {
            Some(Verb::Put(a, b))
        } else if word == b"remove".as_slice() {
            Some(Verb::Remove(a))
        } else if word == b"look".as_slice() {
            Some(Verb::Look)
        } else if word == b"has".as_slice() {
            Some(Verb::Has(a))
        } else if word == b"weight".as_slice() {
            Some(Verb::Weight(a))
        } else if word == b"size".as_slice() {
            Some(Verb::Size)
        } else if word == b"rank".as_slice() {
            Some(Verb::Rank(a))
        } else if word == b"select".as_slice() {
            Some(Verb::Select(a))
        } else if word == b"before".as_slice() {
            Some(Verb::Before(a))
        } else if word == b"after".as_slice() {
            Some(Verb::After(a))
        } else if word == b"range".as_slice() {
            Some(Verb::Range(a, b))
        } else {
            None
        }
    }

    /// How many arguments the verb has.
    pub(crate) fn arity(self) -> usize
        ensures { result ≡ length (written self).1 }
    {
        match self {
            Verb::Look | Verb::Size => 0,
            Verb::Insert(_) | Verb::Remove(_) | Verb::Has(_) | Verb::Weight(_) => 1,
            Verb::Rank(_) | Verb::Select(_) | Verb::Before(_) | Verb::After(_) => 1,
            Verb::Put(_, _) | Verb::Range(_, _) => 2,
        }
    }

    /// Whether the arguments are within their bounds, for keys of `bits` bits.
    pub(crate) fn is_in_bounds(self, bits: u32) -> bool
        requires { bits ≤ 16 }
        ensures { result ≡ is_in_bounds_of bits self }
    {
        let universe = 1u32 << bits;
        match self {
            Verb::Insert(key) | Verb::Put(key, _) | Verb::Remove(key) => key < universe,
            Verb::Has(key) | Verb::Weight(key) => key < universe,
            Verb::Rank(key) | Verb::Before(key) | Verb::After(key) => key <= universe,
            Verb::Select(index) => index <= universe,
            Verb::Range(from, to) => from <= universe && to <= universe,
            Verb::Look | Verb::Size => true,
        }
    }

    /// Whether this is `insert`, `put` or `remove`.
    pub(crate) fn is_update(self) -> bool
        ensures { result ≡ is_update_of self }
    {
        matches!(self, Verb::Insert(_) | Verb::Put(_, _) | Verb::Remove(_))
    }
}

/// The word and the arguments, parted by blanks.
impl fmt::Display for Verb {
    ghost use Rattle.std.specs.Prelude.{Some};
    ghost use Rattle.aug_script.specs.ReportText.{verb_text};

    ghost output = { λ verb. Some (verb_text verb) };

    fn fmt<W: fmt::Write>(&self, f: &mut fmt::Formatter<W>) -> fmt::Result {
        match self {
            Verb::Insert(key) => write!(f, "insert {key}"),
            Verb::Put(key, weight) => write!(f, "put {key} {weight}"),
            Verb::Remove(key) => write!(f, "remove {key}"),
            Verb::Look => write!(f, "look"),
            Verb::Has(key) => write!(f, "has {key}"),
            Verb::Weight(key) => write!(f, "weight {key}"),
            Verb::Size => write!(f, "size"),
            Verb::Rank(key) => write!(f, "rank {key}"),
            Verb::Select(index) => write!(f, "select {index}"),
            Verb::Before(key) => write!(f, "before {key}"),
            Verb::After(key) => write!(f, "after {key}"),
            Verb::Range(from, to) => write!(f, "range {from} {to}"),
        }
    }
}
