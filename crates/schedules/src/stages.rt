//! Stages of schedules.

ghost use Rattle.std.specs.Prelude.{◌≡◌, ◌+◌, ◌/◌, ◌<◌, map};
ghost use Rattle.std.specs.List.{All};
ghost use Rattle.machine_data.specs.declared.limits.TheConstants.{MAX_STAGES};
ghost use Rattle.unit_bound.specs.Units.{greatest_of};

/// One more than the greatest stage of these times.
pub(crate) fn count_stages(times: &[u64], ii: u64) -> u64
    requires some { 0 < ii }
    requires few { All (λ time. time / ii < MAX_STAGES) times.now }
    ensures { result ≡ greatest_of (map (λ time. time / ii) times.now) + 1 }
{
    let mut greatest = 0;
    for time in times {
        greatest = greatest.max(*time / ii);
    }
    greatest + 1
}
