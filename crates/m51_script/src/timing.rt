//! Lines in the order of their cycles.
ghost use Rattle.std.specs.Prelude.{◌≡◌, ◌≤◌, length, nat_le, nat_lt};
ghost use Rattle.std.specs.List.{prefix_len};
ghost use Rattle.m51_script.specs.Timing.{Ascends, latest_cycle};

/// The last cycle that a line may name.
pub(crate) const LATEST_CYCLE: u64 = 99_999_999;

// How many of the cycles come before this one.
pub(crate) fn count_before(cycles: &[u32], cycle: u64) -> usize
    requires { Ascends 0 latest_cycle cycles.now }
    ensures value { result ≡ prefix_len (λ d. nat_lt d cycle) cycles.now }
    ensures within { result ≤ length cycles.now }
{
    cycles.partition_point(
        |d: &u32| -> bool
            ensures { result ≡ nat_lt d.now cycle }
        { u64::from(*d) < cycle },
    )
}

// How many of the cycles come up to this one.
pub(crate) fn count_until(cycles: &[u32], cycle: u64) -> usize
    requires { Ascends 0 latest_cycle cycles.now }
    ensures value { result ≡ prefix_len (λ d. nat_le d cycle) cycles.now }
    ensures within { result ≤ length cycles.now }
{
    cycles.partition_point(
        |d: &u32| -> bool
            ensures { result ≡ nat_le d.now cycle }
        { u64::from(*d) <= cycle },
    )
}
