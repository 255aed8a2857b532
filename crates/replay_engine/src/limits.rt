/// A step has at most so many jobs.
pub const MAX_JOBS: u64 = 4_096;

/// A run has at most so many steps: with all their jobs they can be counted. One more is want of
/// memory.
pub const MAX_STEPS: u64 = 2_251_799_813_685_248;
