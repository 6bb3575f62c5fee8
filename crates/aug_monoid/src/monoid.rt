//! What a fold over keys with weights adds up, and the laws that it keeps.
ghost use Rattle.std.specs.Prelude.{◌≡◌, ◌↔◌, ℕ, ◌^◌, ◌<◌, IsTrue};
ghost use Rattle.aug_monoid.specs.Parts.{Parts};

/// What a fold over keys adds up. Folds go in rising key order, so `join` need not be commutative.
///
/// A value is proper if a program can hold it. The laws speak of proper values.
/// A word is how a value is stored in one atomic word of a record.
pub trait Monoid: Copy + Eq {
    // Its plain parts, which folds and laws speak of.
    ghost parts: { Parts Self };

    /// The fold of no keys.
    fn unit() -> Self
        ensures { result ≡ parts.unit };

    /// The fold of the one key `k` with its weight.
    fn of_key(k: u32, weight: u32) -> Self
        ensures { result ≡ parts.of_key k weight };

    /// The fold of the keys of `self` and then those of `other`.
    fn join(self, other: Self) -> Self
        ensures { result ≡ parts.join self other };

    /// The word that stands for this value.
    fn to_word(self) -> u64
        ensures { result ≡ parts.to_word self };

    /// The value that `word` stands for. A word that stands for none gives some proper value.
    fn from_word(word: u64) -> Self
        ensures { result ≡ parts.from_word word };

    /// Whether a program can hold this value. It can hold every value that these calls make.
    fn proper(self) -> bool
        ensures { IsTrue result ↔ parts.IsProper self };

    // The fold of no keys is proper.
    ghost unit_is_proper: { parts.IsProper parts.unit };

    // So is the fold of one key of 32 bits with a weight of 32 bits.
    ghost key_is_proper: { (k w : ℕ) → k < 2 ^ 32 → w < 2 ^ 32 → parts.IsProper (parts.of_key k w) };

    // So is what two proper values give together.
    ghost join_is_proper: { (x y : Self) → parts.IsProper x → parts.IsProper y → parts.IsProper (parts.join x y) };

    // So is what a word stands for.
    ghost of_word_is_proper: { (w : ℕ) → w < 2 ^ 64 → parts.IsProper (parts.from_word w) };

    // Three neighbours give the same, whichever two are joined first.
    ghost associates: { (x y z : Self) → parts.IsProper x → parts.IsProper y → parts.IsProper z → parts.join (parts.join x y) z ≡ parts.join x (parts.join y z) };

    // The unit adds nothing on the left.
    ghost unit_left: { (x : Self) → parts.IsProper x → parts.join parts.unit x ≡ x };

    // Nor on the right.
    ghost unit_right: { (x : Self) → parts.IsProper x → parts.join x parts.unit ≡ x };

    // The word of a value has 64 bits.
    ghost word_fits: { (x : Self) → parts.IsProper x → parts.to_word x < 2 ^ 64 };

    // And it stands for that value.
    ghost round_trip: { (x : Self) → parts.IsProper x → parts.from_word (parts.to_word x) ≡ x };
}
