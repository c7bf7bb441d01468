//! Which call of a device over memory fails, and how often it has failed.
ghost use Rattle.std.specs.Prelude.{◌≡◌};
ghost use Rattle.devices.specs.Devices.{one_more};
ghost use Rattle.devices.specs.Schedule.{after_call, fails_next};

// Counts one call, and answers whether it is the one that fails.
pub(super) fn is_due(fails_in: &mut Option<u64>) -> bool
    ensures due { result ≡ fails_next fails_in.old }
    ensures counted { fails_in.new ≡ after_call fails_in.old }
{
    match fails_in {
        Some(n) => {
            let due = *n == 1;
            *n = n.saturating_sub(1);
            due
        }
        None => false,
    }
}

// Counts one failure more.
pub(super) fn count_failure(failures: &mut u64)
    ensures { failures.new ≡ one_more failures.old }
{
    *failures = failures.saturating_add(1);
}
