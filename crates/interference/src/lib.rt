// Interference: what the streams above can release in a window, by their least periods and jitters; and how far the search for J may jump by it.
// Nothing here knows a sheet or a deadline.
#![tactic(auto)]

ghost use Rattle.std.specs.Prelude.{◌≡◌, ◌^◌, ◌≤◌, ◌<◌};
ghost use Rattle.model.specs.Limits.{max_time};
ghost use Rattle.model.specs.Analysis.{most_releases};
ghost use Rattle.interference.specs.Periods.{interference_by};
ghost use Rattle.interference.specs.InRange.{HigherRanges};

pub mod jump; // jump.rt: how far the search may jump

// A word as a longer number.
pub fn long(x: u32) -> u64
    ensures { (result ≡ x) × (result < 2 ^ 32) }
{
    x as u64
}

// The most messages that a stream of that least period and jitter can release in a window of w + 1 ticks.
pub fn most_releases(period: u32, jitter: u32, w: u32) -> u32
    requires { (1 ≤ period) × (jitter ≤ max_time) × (w ≤ max_time) }
    ensures { result ≡ most_releases period jitter w }
{
    1 + (w + jitter) / period
}

// Interference, "H", of streams with these least periods and jitters, in a window of w + 1 ticks. It passes 32 bits, and no term of it
// does.
pub fn interference_of(periods: &[u32], jitters: &[u32], w: u32) -> u64
    requires { HigherRanges periods.now jitters.now × (w ≤ max_time) }
    ensures { result ≡ interference_by periods.now jitters.now w }
{
    let mut sum: u64 = 0;
    for (&period, &jitter) in periods.iter().zip(jitters) {
        sum += long(most_releases(period, jitter, w));
    }
    sum
}
