// The run of the turns of a log from any record on, with its trace: release number and begin tick of each message in the order begun. The
// first releases of the log may stand in any order of their ticks.
#![tactic(auto)]

ghost use Rattle.std.specs.Prelude.{◌≡◌, ◌*◌, ◌≤◌, ◌<◌, ◌++◌, length, take, drop, replicate};
ghost use Rattle.model.specs.Limits.{release_words, max_time, max_budget, not_begun};
ghost use Rattle.model.specs.Protocol.{releases, none_begun, run};
ghost use Rattle.model.specs.Trace.{run_words};
ghost use Rattle.queue.specs.Queue.{ValidNode, RisingFrom, Arrived, FirstUnbegun};
ghost use Rattle.trace.specs.Progress.{NoneBefore};

use model::Bus;
use progress::Progress;
use queue::{arrived_by, next_unbegun};

// The next tick at which a release that has not begun is due, or the horizon; where one is due already, a tick that is not after this one.
fn next_due(log: &[u32], begins: &[u32], horizon: u32, tick: u32, from: usize, to: usize) -> u32
    requires { RisingFrom log.now to × Arrived log.now tick to × (tick < horizon) × (releases log.now ≤ length begins.now) × FirstUnbegun log.now begins.now from }
    ensures range { result ≤ horizon }
    ensures quiet { tick < result → NoneBefore log.now begins.now result }
{
    let mut until = turns::next_event(log, horizon, tick, to);
    let mut i = from;
    // Kept: a while, since `i` jumps to the next release that has not begun, and counts nothing.
    while i < to {
        let due = log[2 * i];
        if due <= tick {
            return due;
        }
        until = until.min(due);
        i = next_unbegun(begins, i + 1, to);
    }
    until
}

// The turns of a log that start before the horizon, from a record on and with none of its releases begun. The first `held` releases may have
// any ticks; after those ticks never fall. While nothing is due, the bus only passes protocol slots, and those turns are taken at once.
// Writes the begin ticks, lists them in the order begun, and answers how far it came; `found` is for those that a turn takes.
pub fn run_log(
    sheet: &[u32],
    log: &[u32],
    held: usize,
    start: Bus,
    horizon: u32,
    numbers: &[u32],
    found: &mut [usize],
    begins: &mut [u32],
    room: &mut [u32],
) -> Progress
    requires valid_node { ValidNode sheet.now start.node × (start.turns ≤ max_time) × (horizon ≤ max_time) × RisingFrom log.now held × (held ≤ releases log.now) }
    requires log_in_bounds { (releases log.now ≤ length begins.old) × (releases log.now ≤ length numbers.now) × (release_words * releases log.now ≤ length room.old) × (max_budget ≤ length found.old) }
    requires begins_value { take (releases log.now) begins.old ≡ replicate (releases log.now) not_begun }
    ensures record { result.bus ≡ (run sheet.now log.now horizon horizon (none_begun log.now start)).bus }
    ensures begins { begins.new ≡ (run sheet.now log.now horizon horizon (none_begun log.now start)).begins ++ drop (releases log.now) begins.old }
    ensures begun { (release_words * result.begun ≡ length (run_words sheet.now log.now numbers.now horizon horizon (none_begun log.now start))) × (result.begun ≤ releases log.now) }
    ensures listed { room.new ≡ run_words sheet.now log.now numbers.now horizon horizon (none_begun log.now start) ++ drop (release_words * result.begun) room.old }
{
    let header = turns::header_of(sheet);
    let count = log.len() / 2;
    let mut p = Progress {
        bus: start,
        from: 0,
        to: held,
        begun: 0,
    };
    // Kept: a while, since each turn moves the clock by its own ticks, and nothing is counted.
    while p.bus.tick < horizon {
        p.from = next_unbegun(&begins[..], p.from, count);
        p.to = arrived_by(log, p.bus.tick, p.to);
        let until = next_due(log, &begins[..], horizon, p.bus.tick, p.from, p.to);
        if p.bus.tick < until {
            p.bus = turns::pass_idle(sheet, header, p.bus, until);
        } else {
            p = p.run_turn(sheet, header, log, numbers, found, begins, room);
        }
    }
    p
}
