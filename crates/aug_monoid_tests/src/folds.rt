//! Each fold of examples, and the words that folds are stored as.

use crate::assertions::equal;
use aug_monoid::{Count, Extent, Greatest, Least, Monoid, Nothing, Sum, fold_slice};
use aug_testing::Last;

const UPPER: u64 = 4_294_967_296;

const RISING: &[(u32, u32)] = &[(5, 5), (9, 9)];

const FALLING: &[(u32, u32)] = &[(9, 9), (5, 5)];

// The words of the unit, of the fold of no keys, of that of 5 and 9 once it was stored, of that of 9 and 5, and of the greatest word joined with
// the key 3. Last, 1 if a word that stands for no extent gives a proper value.
fn words_of<M: Monoid>() -> [u64; 6] {
    let none = fold_slice::<M>(&[]).to_word();
    let stored = M::from_word(fold_slice::<M>(RISING).to_word()).to_word();
    let falling = fold_slice::<M>(FALLING).to_word();
    let joined = M::from_word(u64::MAX).join(M::of_key(3, 3)).to_word();
    let proper = u64::from(M::from_word(9 * UPPER + 5).proper());
    [M::unit().to_word(), none, stored, falling, joined, proper]
}

// Counts and sums wrap at the end of a word. The order of keys counts for `Last` alone.
#[test]
fn folds_have_the_words_of_the_table(rt: HostRuntime) {
    equal(&rt, words_of::<Count>(), [0, 0, 2, 2, 0, 1]);
    equal(&rt, words_of::<Sum>(), [0, 0, 14, 14, 2, 1]);
    equal(&rt, words_of::<Least>(), [UPPER, UPPER, 5, 5, 3, 1]);
    equal(&rt, words_of::<Greatest>(), [UPPER, UPPER, 9, 9, 3, 1]);
    let (both, joined) = (21_474_836_489, 17_179_869_183);
    let expected = [UPPER, UPPER, both, both, joined, 1];
    equal(&rt, words_of::<Extent>(), expected);
    equal(&rt, words_of::<Nothing>(), [0, 0, 0, 0, 0, 1]);
    equal(&rt, words_of::<Last>(), [UPPER, UPPER, 9, 5, 3, 1]);
}

#[test]
fn each_fold_of_5_and_9_has_its_value(rt: HostRuntime) {
    equal(&rt, fold_slice::<Count>(RISING).value(), 2);
    equal(&rt, fold_slice::<Sum>(RISING).value(), 14);
    equal(&rt, fold_slice::<Least>(RISING).value(), Some(5));
    equal(&rt, fold_slice::<Greatest>(RISING).value(), Some(9));
    equal(&rt, fold_slice::<Extent>(RISING).bounds(), Some((5, 9)));
}

// A word, and what it stands for as the least key, as the greatest and as an extent.
const STORED: &[(u64, Option<u32>, Option<(u32, u32)>)] = &[
    (UPPER - 1, Some(4_294_967_295), Some((0, 4_294_967_295))),
    (UPPER, None, None),
    (UPPER + 5, None, Some((1, 5))),
    (9 * UPPER + 5, None, None),
    (21_474_836_489, None, Some((5, 9))),
    (u64::MAX - 1, None, None),
    (u64::MAX, None, Some((4_294_967_295, 4_294_967_295))),
];

#[test]
fn a_word_above_the_keys_gives_no_least_or_greatest(rt: HostRuntime) {
    for (word, key, bounds) in STORED {
        equal(&rt, Least::from_word(*word).value(), *key);
        equal(&rt, Greatest::from_word(*word).value(), *key);
        equal(&rt, Extent::from_word(*word).bounds(), *bounds);
    }
}
