//! Numbers that sweeps go through.

/// All numbers of lanes, and some of them.
pub const EACH: &[u32] = &[
    1, 2, 3, 4, 5, 6, 7, 8, 9, 10, 11, 12, 13, 14, 15, 16, 17, 18, 19, 20, 21, 22, 23, 24, 25, 26,
    27, 28, 29, 30, 31, 32, 33, 34, 35, 36, 37, 38, 39, 40, 41, 42, 43, 44, 45, 46, 47, 48, 49, 50,
    51, 52, 53, 54, 55, 56, 57, 58, 59, 60, 61, 62, 63, 64,
];

pub const SOME: &[u32] = &[1, 2, 3, 4, 5, 6, 7, 8, 15, 16, 17, 31, 32, 33, 63, 64];

/// Numbers of updates.
pub const UPDATES: &[u32] = &[
    1, 2, 4, 8, 16, 32, 64, 128, 256, 512, 1_024, 2_048, 4_096, 8_192, 16_384, 32_768, 65_536,
];

/// Some sizes of sets of keys of `bits` bits.
pub fn sizes(bits: u32) -> [u32; 5] {
    let universe: u32 = 1 << bits.min(16);
    [0, 1, universe / 2, universe.saturating_sub(1), universe]
}

/// The bits of a sweep, the numbers of lanes and of updates, the words that a table may have, and how many tables are made with each number of bits.
/// There is one for each number of lanes and of updates, as long as it has no more words.
pub type Sweep = ((u32, u32), &'static [u32], &'static [u32], u64, u32);
