//! Counts of calls and of faults, which stop at the largest `u64`.
ghost use Rattle.std.specs.Prelude.{◌≡◌};
ghost use Rattle.qz_io.specs.Counts.{raised};

/// One more than `count`, or `count` where it is `u64::MAX`.
pub(crate) fn next_count(count: u64) -> u64
    ensures { result ≡ raised count }
{
    count.saturating_add(1)
}
