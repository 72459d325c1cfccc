//! Numbers that are drawn, the same in each run.

/// The next of a row of numbers (a linear congruential generator).
pub(crate) fn next_random(seed: u64) -> u64 {
    seed.wrapping_mul(6_364_136_223_846_793_005)
        .wrapping_add(1_442_695_040_888_963_407)
}

/// The bits of a number that are drawn well.
pub(crate) fn drawn(seed: u64) -> u32 {
    (seed >> 33) as u32
}
