/// A key whose weight differs between an earlier and a later set, or which only one of them has.
#[derive(Clone, Copy, PartialEq, Eq, Debug, Default)]
pub struct Difference {
    /// The key.
    pub key: u32,
    /// Its weight in the earlier set, or `None` if it was no member.
    pub before: Option<u32>,
    /// Its weight in the later set, or `None` if it is no member.
    pub after: Option<u32>,
}
