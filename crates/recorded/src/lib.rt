// The run of turns to a horizon that keeps a record of each stream beside the begin ticks, on input that has been checked.
#![tactic(auto)]

ghost use Rattle.std.specs.Prelude.{◌≡◌, ◌++◌, ◌≤◌, length, take, drop, replicate};
ghost use Rattle.model.specs.Limits.{max_time, max_budget, not_begun};
ghost use Rattle.model.specs.Sheet.{Valid};
ghost use Rattle.model.specs.Protocol.{releases, serve_turn, replayed};
ghost use Rattle.queue.specs.Queue.{ValidNode, Rising, Arrived, FirstUnbegun};
ghost use Rattle.turns.specs.Turns.{header_as};
ghost use Rattle.limits.specs.Limits.{LimitsOf};
ghost use Rattle.recorded.specs.Recorded.{KnownStreams, list_for, UpToDate};

use model::{Bus, StreamRecord};
use turns::Header;

// The bus record's turn, as the plain replay runs it, and the stream records of the messages that it takes. After it the list is the one
// worked out afresh from the log and the begins so far, if it was so before.
fn run_turn_with_records(
    sheet: &[u32],
    header: Header,
    log: &[u32],
    bus: Bus,
    from: usize,
    to: usize,
    limits: &[u32],
    found: &mut [usize],
    room: &mut [u32],
    records: &mut [StreamRecord],
) -> u32
    requires valid_node { ValidNode sheet.now bus.node × (bus.tick ≤ max_time) × (releases log.now ≤ length room.old) × (max_budget ≤ length found.old) }
    requires header_value { (header ≡ header_as sheet.now) × FirstUnbegun log.now room.old from × Arrived log.now bus.tick to }
    requires limits_of { LimitsOf sheet.now limits.now × KnownStreams sheet.now log.now × UpToDate sheet.now log.now room.old records.old }
    ensures taken { result ≡ (serve_turn sheet.now log.now bus room.old).taken }
    ensures begins { room.new ≡ (serve_turn sheet.now log.now bus room.old).begins }
    ensures every_turn { records.new ≡ list_for sheet.now log.now room.new records.old }
{
    let taken = turns::run_turn(sheet, header, log, bus, from, to, found, room);
    let count = layout::wide(taken);
    records::note_messages(
        log,
        limits,
        &found[..],
        count,
        header.message,
        bus.tick,
        records,
    );
    taken
}

// The turns that start before the horizon, from tick 0 with nothing sent: those of the plain replay, and the list of records is kept up to
// date with every turn.
pub fn run_to_with_records(
    sheet: &[u32],
    log: &[u32],
    horizon: u32,
    limits: &[u32],
    found: &mut [usize],
    room: &mut [u32],
    records: &mut [StreamRecord],
) -> Bus
    requires valid { Valid sheet.now × Rising log.now × (horizon ≤ max_time) × (releases log.now ≤ length room.old) × (max_budget ≤ length found.old) }
    requires room_value { take (releases log.now) room.old ≡ replicate (releases log.now) not_begun }
    requires limits_of { LimitsOf sheet.now limits.now × KnownStreams sheet.now log.now × UpToDate sheet.now log.now room.old records.old }
    ensures record { result ≡ (replayed sheet.now log.now horizon).bus }
    ensures begins { room.new ≡ (replayed sheet.now log.now horizon).begins ++ drop (releases log.now) room.old }
    ensures records { records.new ≡ list_for sheet.now log.now room.new records.old }
{
    let header = turns::header_of(sheet);
    let mut p = runs::start_at(sheet, header, log, horizon, &room[..]);
    // Kept: no count. A turn moves the clock by as many ticks as its messages and its slot take.
    while p.bus.tick < horizon {
        let bus = p.bus;
        let taken = run_turn_with_records(
            sheet, header, log, bus, p.from, p.to, limits, found, room, records,
        );
        p = runs::move_on(sheet, header, log, horizon, p, taken, &room[..]);
    }
    p.bus
}
