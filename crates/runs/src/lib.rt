// The run of turns to a horizon, on input that has been checked.
#![tactic(auto)]

ghost use Rattle.std.specs.Prelude.{◌≡◌, ◌+◌, ◌≤◌, ◌++◌, length, take, drop, replicate};
ghost use Rattle.model.specs.Limits.{max_time, max_budget, not_begun};
ghost use Rattle.model.specs.Sheet.{Valid};
ghost use Rattle.model.specs.Protocol.{releases, next_bus, first_turn, replayed};
ghost use Rattle.queue.specs.Queue.{ValidNode, Rising, BegunFrom};
ghost use Rattle.turns.specs.Turns.{header_as};
ghost use Rattle.runs.specs.Run.{Ahead};

use model::Bus;
use queue::{arrived_by, next_unbegun};
use turns::{Header, header_of, next_bus, next_event, pass_idle, run_turn};

// How far a run has come: the record of its next turn; the first release that has not begun; and a number of releases that has all those due
// among it.
#[derive(Clone, Copy)]
pub struct Position {
    pub bus: Bus,
    pub from: usize,
    pub to: usize,
}

// Moves a run on to its next turn in which a message waits, or to one that is not before the horizon. While all that has come has begun, the
// bus only passes protocol slots up to the next release, and those turns are taken at once.
fn pass_silent(
    sheet: &[u32],
    header: Header,
    log: &[u32],
    horizon: u32,
    run: Position,
    room: &[u32],
) -> Position
    requires valid_node { ValidNode sheet.now run.bus.node × (header ≡ header_as sheet.now) × Rising log.now × (horizon ≤ max_time) × (releases log.now ≤ length room.now) }
    requires from_bound { (run.from ≤ releases log.now) × (run.to ≤ releases log.now) × BegunFrom room.now 0 run.from × (run.bus.turns ≤ max_time + run.bus.tick) }
    ensures { Ahead sheet.now log.now horizon room.now run.bus result }
{
    let bus = run.bus;
    let from = next_unbegun(room, run.from, log.len() / 2);
    let to = arrived_by(log, bus.tick, run.to);
    if from < to || horizon <= bus.tick {
        return Position { bus, from, to };
    }
    let until = next_event(log, horizon, bus.tick, to);
    let next = pass_idle(sheet, header, bus, until);
    let due = arrived_by(log, next.tick, to);
    Position {
        bus: next,
        from,
        to: due,
    }
}

// Where a replay starts: from tick 0 with nothing sent, at its first turn in which a message waits.
pub fn start_at(sheet: &[u32], header: Header, log: &[u32], horizon: u32, room: &[u32]) -> Position
    requires { Valid sheet.now × (header ≡ header_as sheet.now) × Rising log.now × (horizon ≤ max_time) × (releases log.now ≤ length room.now) }
    ensures { Ahead sheet.now log.now horizon room.now first_turn result }
{
    let bus = Bus {
        tick: 0,
        node: 1,
        turns: 0,
    };
    pass_silent(
        sheet,
        header,
        log,
        horizon,
        Position {
            bus,
            from: 0,
            to: 0,
        },
        room,
    )
}

// Moves a run on past a turn that took so many messages.
pub fn move_on(
    sheet: &[u32],
    header: Header,
    log: &[u32],
    horizon: u32,
    run: Position,
    taken: u32,
    room: &[u32],
) -> Position
    requires valid_node { ValidNode sheet.now run.bus.node × (header ≡ header_as sheet.now) × Rising log.now × (horizon ≤ max_time) × (releases log.now ≤ length room.now) }
    requires from_bound { (run.from ≤ releases log.now) × (run.to ≤ releases log.now) × BegunFrom room.now 0 run.from }
    requires tick_le_max_time { (run.bus.tick ≤ max_time) × (run.bus.turns ≤ max_time + run.bus.tick) × (taken ≤ max_budget) }
    ensures { Ahead sheet.now log.now horizon room.now (next_bus sheet.now run.bus taken) result }
{
    let bus = next_bus(sheet, header, run.bus, taken);
    let from = run.from;
    let to = run.to;
    pass_silent(
        sheet,
        header,
        log,
        horizon,
        Position { bus, from, to },
        room,
    )
}

// The turns that start before the horizon, from tick 0 with nothing sent. Writes the begin ticks, and answers the record after the last;
// `found` is for those that a turn takes.
pub fn run_to(
    sheet: &[u32],
    log: &[u32],
    horizon: u32,
    found: &mut [usize],
    room: &mut [u32],
) -> Bus
    requires valid { Valid sheet.now × Rising log.now × (horizon ≤ max_time) × (releases log.now ≤ length room.old) × (max_budget ≤ length found.old) }
    requires room_value { take (releases log.now) room.old ≡ replicate (releases log.now) not_begun }
    ensures record { result ≡ (replayed sheet.now log.now horizon).bus }
    ensures begins { room.new ≡ (replayed sheet.now log.now horizon).begins ++ drop (releases log.now) room.old }
{
    let header = header_of(sheet);
    let mut p = start_at(sheet, header, log, horizon, &room[..]);
    // Kept: a while, since each turn moves the clock by its own ticks, and nothing is counted.
    while p.bus.tick < horizon {
        let bus = p.bus;
        let taken = run_turn(sheet, header, log, bus, p.from, p.to, found, room);
        p = move_on(sheet, header, log, horizon, p, taken, &room[..]);
    }
    p.bus
}
