// The listed wait by the least periods and jitters of the streams above and a node's timing: the search for J. Nothing here knows a
// sheet.
#![tactic(auto)]

ghost use Rattle.std.specs.Prelude.{◌≡◌, ◌+◌, ◌-◌, ◌*◌, ◌≤◌};
ghost use Rattle.model.specs.Limits.{max_time};
ghost use Rattle.model.specs.Analysis.{wait_for, verdict, tries_worth};
ghost use Rattle.interference.specs.Periods.{interference_by};
ghost use Rattle.interference.specs.InRange.{HigherRanges, Ranges, StreamRanges, FoundJ};
ghost use Rattle.interference.specs.Jump.{NoneBelow};

use interference::jump::{ALL, NEAR, next_try};
use interference::{interference_of, long};
use model::{Stream, Timing, Verdict};

pub mod near; // near.rt: the verdict where H is known for the first cycles

// How many J are worth a try: the late test. The deadline runs from the event, a message is queued up to the stream's own jitter after
// it, and it is delivered when the turn that has it is over: so the jitter and the longest turn, its protocol slot included, are
// taken off the deadline.
fn tries_worth(timing: Timing, stream: Stream) -> u32
    requires { Ranges timing × StreamRanges stream }
    ensures { result ≡ tries_worth timing stream }
{
    let taken = stream.jitter + (timing.budget * timing.message + timing.slot);
    (stream.deadline + 1).saturating_sub(taken) / timing.cycle
}

// The listed wait at J, "cycles", where h is the interference in so many.
fn wait_at(periods: &[u32], jitters: &[u32], h: u64, cycles: u32, timing: Timing) -> u32
    requires { Ranges timing × FoundJ periods.now jitters.now timing cycles h }
    ensures { result ≡ wait_for (interference_by periods.now jitters.now) timing cycles }
{
    let place = h - long(cycles - 1) * long(timing.budget);
    cycles * timing.cycle - 1 + place as u32 * timing.message
}

// How far to reach for the jump after this one: some times its length, or all, where the next is the first by a split. Nothing is
// promised of it: a jump is sound with any reach.
fn reach_after(cycles: u32, next: u32, cycle: u32) -> u32
    requires { (cycles ≤ next) × ((next - cycles) * cycle ≤ max_time + 1) }
{
    if cycles < NEAR {
        ALL
    } else {
        4 * ((next - cycles) * cycle)
    }
}

// The search for J from a number on below which none suffices, as long as so many cycles are worth a try, and from each that does not suffice to the
// next that may.
fn verdict_from(
    periods: &[u32],
    jitters: &[u32],
    timing: Timing,
    stream: Stream,
    from: u32,
) -> Verdict
    requires { HigherRanges periods.now jitters.now × Ranges timing × StreamRanges stream × (1 ≤ from) × NoneBelow (interference_by periods.now jitters.now) timing 1 from }
    ensures { result ≡ verdict (interference_by periods.now jitters.now) timing stream }
{
    let tries = tries_worth(timing, stream);
    let mut cycles = from;
    let mut reach: u32 = ALL;
    // Kept: a while, as the search jumps from number to number and counts nothing.
    while cycles <= tries {
        let h = interference_of(periods, jitters, cycles * timing.cycle - 1);
        if h < long(cycles) * long(timing.budget) {
            let wait = wait_at(periods, jitters, h, cycles, timing);
            return Verdict::Listed { wait, cycles };
        }
        let next = next_try(periods, jitters, timing, cycles, h, tries, reach);
        reach = reach_after(cycles, next, timing.cycle);
        cycles = next;
    }
    Verdict::Late
}

// The search for J, from 1 on.
pub fn verdict_by(periods: &[u32], jitters: &[u32], timing: Timing, stream: Stream) -> Verdict
    requires { HigherRanges periods.now jitters.now × Ranges timing × StreamRanges stream }
    ensures { result ≡ verdict (interference_by periods.now jitters.now) timing stream }
{
    verdict_from(periods, jitters, timing, stream, 1)
}
