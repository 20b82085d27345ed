// The verdict where the interference in one and in two full cycles is known already, as in a pass over streams in rank order: a listed wait is mostly
// found there, and nothing is divided.
ghost use Rattle.std.specs.Prelude.{◌≡◌, ◌+◌, ◌-◌, ◌*◌, ◌≤◌};
ghost use Rattle.model.specs.Limits.{max_streams, max_time};
ghost use Rattle.model.specs.Analysis.{most_releases, late_at, verdict};
ghost use Rattle.interference.specs.Periods.{interference_by};
ghost use Rattle.interference.specs.InRange.{HigherRanges, Ranges, StreamRanges};

use crate::{tries_worth, verdict_from, wait_at};
use interference::jump::{ALL, next_try};
use interference::{long, most_releases};
use model::{Stream, Timing, Verdict};

// Interference with one stream more.
pub fn with_one_more(h: u64, period: u32, jitter: u32, w: u32) -> u64
    requires { (1 ≤ period) × (jitter ≤ max_time) × (w ≤ max_time) × (h ≤ max_streams * (2 * max_time + 1)) }
    ensures { (result ≡ h + most_releases period jitter w) × (result ≤ h + (2 * max_time + 1)) }
{
    h + long(most_releases(period, jitter, w))
}

// The late test at a J of few cycles.
fn is_late_at(timing: Timing, stream: Stream, cycles: u32) -> bool
    requires { Ranges timing × StreamRanges stream × (1 ≤ cycles) × (cycles ≤ 3) }
    ensures { result ≡ late_at timing stream cycles }
{
    let turn = timing.budget * timing.message + timing.slot;
    stream.deadline < stream.jitter + (cycles * timing.cycle - 1 + turn)
}

// The verdict where one cycle does not suffice and h is the interference in two.
fn verdict_from_two(
    periods: &[u32],
    jitters: &[u32],
    h: u64,
    timing: Timing,
    stream: Stream,
) -> Verdict
    requires { HigherRanges periods.now jitters.now × Ranges timing × StreamRanges stream × (h ≡ interference_by periods.now jitters.now (2 * timing.cycle - 1)) × (timing.budget ≤ interference_by periods.now jitters.now (timing.cycle - 1)) }
    ensures { result ≡ verdict (interference_by periods.now jitters.now) timing stream }
{
    if is_late_at(timing, stream, 2) {
        return Verdict::Late;
    }
    if h < 2 * long(timing.budget) {
        let wait = wait_at(periods, jitters, h, 2, timing);
        return Verdict::Listed { wait, cycles: 2 };
    }
    if is_late_at(timing, stream, 3) {
        return Verdict::Late;
    }
    let tries = tries_worth(timing, stream);
    let next = next_try(periods, jitters, timing, 2, h, tries, ALL);
    verdict_from(periods, jitters, timing, stream, next)
}

// The verdict where `one` is the interference in one cycle and `two` that in two.
pub fn verdict_near(
    periods: &[u32],
    jitters: &[u32],
    one: u64,
    two: u64,
    timing: Timing,
    stream: Stream,
) -> Verdict
    requires { HigherRanges periods.now jitters.now × Ranges timing × StreamRanges stream × (one ≡ interference_by periods.now jitters.now (timing.cycle - 1)) × (two ≡ interference_by periods.now jitters.now (2 * timing.cycle - 1)) }
    ensures { result ≡ verdict (interference_by periods.now jitters.now) timing stream }
{
    if is_late_at(timing, stream, 1) {
        return Verdict::Late;
    }
    if one < long(timing.budget) {
        let wait = wait_at(periods, jitters, one, 1, timing);
        return Verdict::Listed { wait, cycles: 1 };
    }
    verdict_from_two(periods, jitters, two, timing, stream)
}
