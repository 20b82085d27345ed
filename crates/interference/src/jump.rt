// How far the search for J may jump where a number of cycles does not suffice. The streams above with a period within `reach` are taken
// by their rate and their jitter, and the others by what they can release in those cycles; proofs/Analysis/Jump of the model says why that is sound,
// whatever the reach. The reach is chosen for speed alone.
ghost use Rattle.std.specs.Prelude.{◌≡◌, ◌+◌, ◌-◌, ◌*◌, ◌≤◌, ◌<◌};
ghost use Rattle.model.specs.Limits.{max_streams, max_budget, max_time};
ghost use Rattle.interference.specs.Periods.{interference_by};
ghost use Rattle.interference.specs.InRange.{max_cycle, HigherRanges, Ranges, Filled};
ghost use Rattle.interference.specs.Jump.{scale, held_by, rated_by, ahead_by, held_of, rate_of, ahead_of, NoneBelow};

use crate::{long, most_releases};
use model::Timing;

// A rate is counted in so many parts of a message a cycle, 2 to the 34th. Then fifteen rates, rounded down, are together less than one
// message short in all the cycles that a deadline allows: where the streams above fill the turns exactly, that is seen.
const SCALE: u64 = 17_179_869_184;

// Below so many cycles the plain jump is fast enough.
pub const NEAR: u32 = 16;

// Past all numbers that are tried.
const PAST_ALL: u64 = 4_294_967_296;

// A reach that no period passes.
pub const ALL: u32 = 1_000_000_000;

// What a stream counts with that is not taken by its rate.
fn held_by(period: u32, jitter: u32, w: u32, reach: u32) -> u64
    requires { (1 ≤ period) × (jitter ≤ max_time) × (w ≤ max_time) }
    ensures { (result ≡ held_by reach w period jitter) × (result ≤ 2 * max_time + 1) }
{
    if reach < period {
        long(most_releases(period, jitter, w))
    } else {
        0
    }
}

// The rate of a stream that is taken by it.
fn rated_by(period: u32, cycle: u32, reach: u32) -> u64
    requires { (1 ≤ period) × (cycle ≤ max_cycle) }
    ensures { (result ≡ rated_by reach cycle period) × (result ≤ max_cycle * scale) }
{
    if period <= reach {
        long(cycle) * SCALE / long(period)
    } else {
        0
    }
}

// What a stream that is taken by its rate is ahead of it, by its jitter, in parts of a message. (Most streams have no jitter, and then
// nothing is divided.)
fn ahead_by(period: u32, jitter: u32, reach: u32) -> u64
    requires { (jitter < period) × (period ≤ max_time) }
    ensures { (result ≡ ahead_by reach period jitter) × (result ≤ scale) }
{
    if jitter == 0 {
        return 0;
    }
    if period <= reach {
        long(jitter) * SCALE / long(period)
    } else {
        0
    }
}

// The split of streams at a reach: what those past it count with together, and of those within it the rates, and what they are ahead of
// them.
#[derive(Clone, Copy)]
struct Split {
    held: u64,
    ahead: u64,
    rate: u64,
}

// The split of streams with these least periods and jitters, for a window of w + 1 ticks.
fn split_at(periods: &[u32], jitters: &[u32], w: u32, cycle: u32, reach: u32) -> Split
    requires { HigherRanges periods.now jitters.now × (w ≤ max_time) × (cycle ≤ max_cycle) }
    ensures sums { (result.held ≡ held_of reach w periods.now jitters.now) × (result.ahead ≡ ahead_of reach periods.now jitters.now) × (result.rate ≡ rate_of reach cycle periods.now) }
    ensures few { result.ahead ≤ max_streams * scale }
{
    let mut held: u64 = 0;
    let mut ahead: u64 = 0;
    let mut rate: u64 = 0;
    // The jitters by index, as a zip asks for both lengths at each stream, and this loop is most of a jump's time.
    for (i, &period) in periods.iter().enumerate() {
        held += held_by(period, jitters[i], w, reach);
        ahead += ahead_by(period, jitters[i], reach);
        rate += rated_by(period, cycle, reach);
    }
    Split { held, ahead, rate }
}

// What the rates leave of a turn, in parts of a message; 0 where they fill it.
fn left_of(budget: u32, rate: u64) -> u64
    requires { budget ≤ max_budget }
    ensures { result ≡ budget * scale - rate }
{
    (long(budget) * SCALE).saturating_sub(rate)
}

// A number that each from `cycles` on that suffices comes up to, by the split at that reach. Where the rates alone fill the turns, none
// suffices; and where those held are too many to be counted in parts, it is `cycles`.
fn split_jump(periods: &[u32], jitters: &[u32], timing: Timing, cycles: u32, reach: u32) -> u64
    requires { HigherRanges periods.now jitters.now × Ranges timing × (1 ≤ cycles) × (cycles * timing.cycle ≤ max_time + 1) }
    ensures { NoneBelow (interference_by periods.now jitters.now) timing cycles result }
{
    let split = split_at(
        periods,
        jitters,
        cycles * timing.cycle - 1,
        timing.cycle,
        reach,
    );
    let left = left_of(timing.budget, split.rate);
    if left == 0 {
        return PAST_ALL;
    }
    if split.held > 1_000_000_000 {
        return long(cycles);
    }
    ((split.held + 1) * SCALE + split.ahead - 1) / left + 1
}

// The farther of the plain jump and that by a split.
fn farther(
    periods: &[u32],
    jitters: &[u32],
    timing: Timing,
    cycles: u32,
    reach: u32,
    plain: u64,
) -> u64
    requires { HigherRanges periods.now jitters.now × Ranges timing × (1 ≤ cycles) × (cycles * timing.cycle ≤ max_time + 1) × NoneBelow (interference_by periods.now jitters.now) timing cycles plain }
    ensures { (plain ≤ result) × NoneBelow (interference_by periods.now jitters.now) timing cycles result }
{
    if cycles < NEAR {
        return plain;
    }
    plain.max(split_jump(periods, jitters, timing, cycles, reach))
}

// The next number to try, where h is the interference in `cycles` and fills all their turns: none between them suffices. It is past
// the last where none is left.
pub fn next_try(
    periods: &[u32],
    jitters: &[u32],
    timing: Timing,
    cycles: u32,
    h: u64,
    last: u32,
    reach: u32,
) -> u32
    requires { HigherRanges periods.now jitters.now × Ranges timing × Filled periods.now jitters.now timing cycles h × (cycles ≤ last) × (last ≤ max_time) }
    ensures { (cycles < result) × (result ≤ last + 1) × NoneBelow (interference_by periods.now jitters.now) timing cycles result }
{
    let plain = h / long(timing.budget) + 1;
    let next = farther(periods, jitters, timing, cycles, reach, plain);
    next.min(long(last) + 1) as u32
}
