// The masks of a schedule.
ghost use Rattle.std.specs.Prelude.{◌≡◌, ◌<◌, ◌≤◌, ◌^◌};
ghost use Rattle.fh_event.specs.Masks.{is_mask};

/// Whether a mask isn't empty, and has no number below `low` and none above `high`.
#[tactic(auto, unfolding(crate::specs::Masks::is_mask))]
pub(crate) fn is_mask(low: u8, high: u8, mask: u64) -> bool
    requires low { low ≤ high }
    requires high { high < 63 }
    ensures { result ≡ is_mask low high mask }
{
    mask != 0 && mask % power_of_two(low) == 0 && mask < power_of_two(high + 1)
}

fn power_of_two(n: u8) -> u64
    requires { n < 64 }
    ensures { result ≡ 2 ^ n }
{
    1 << n
}
