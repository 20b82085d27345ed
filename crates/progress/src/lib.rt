// How far a run of the turns of a log has come, and one turn of it with its trace: release number and begin tick of each message in the order
// begun.
#![tactic(auto)]

ghost use Rattle.std.specs.Prelude.{◌≡◌, ◌+◌, ◌*◌, ◌≤◌, length, take};
ghost use Rattle.theory.specs.Listing.{replaced_at};
ghost use Rattle.model.specs.Limits.{release_words, max_time, max_budget, max_slot_ticks};
ghost use Rattle.model.specs.Sheet.{message_ticks, budget};
ghost use Rattle.model.specs.Protocol.{releases, taken_by, serve_turn, next_bus};
ghost use Rattle.model.specs.Trace.{begin_words, begun_below};
ghost use Rattle.queue.specs.Queue.{ValidNode, Arrived, FirstUnbegun};
ghost use Rattle.turns.specs.Turns.{header_as, AllBelow};

use model::Bus;
use turns::Header;

// How far a run has come: the record of its next turn; the first release that has not begun; a number of releases that has all those due
// among it; and how many have begun.
#[derive(Clone, Copy)]
pub struct Progress {
    pub bus: Bus,
    pub from: usize,
    pub to: usize,
    pub begun: usize,
}

// Writes the release numbers and begin ticks of the messages at the first `count` places, which begin one after the other.
fn list_begins(
    message: u32,
    tick: u32,
    places: &[usize],
    count: usize,
    numbers: &[u32],
    at: usize,
    room: &mut [u32],
)
    requires count_le_max_budget { (count ≤ max_budget) × (count ≤ length places.now) × (message ≤ max_slot_ticks) × (tick ≤ max_time) }
    requires all_below { AllBelow (length numbers.now) (take count places.now) × (at + release_words * count ≤ length room.old) }
    ensures { room.new ≡ replaced_at room.old at (begin_words message tick numbers.now (take count places.now)) }
{
    let mut begin = tick;
    for (j, place) in places[..count].iter().enumerate() {
        room[at + 2 * j] = numbers[*place];
        room[at + 2 * j + 1] = begin;
        begin += message;
    }
}

impl Progress {
    // One turn: the messages that it takes begin, and are listed after those that have begun before.
    pub fn run_turn(
        self,
        sheet: &[u32],
        header: Header,
        log: &[u32],
        numbers: &[u32],
        found: &mut [usize],
        begins: &mut [u32],
        room: &mut [u32],
    ) -> Progress
        requires valid_node { ValidNode sheet.now self.bus.node × (self.bus.tick ≤ max_time) × (self.bus.turns ≤ max_time + self.bus.tick) × (header ≡ header_as sheet.now) }
        requires log_in_bounds { (releases log.now ≤ length begins.old) × (releases log.now ≤ length numbers.now) × (release_words * releases log.now ≤ length room.old) × (max_budget ≤ length found.old) }
        requires first_unbegun { FirstUnbegun log.now begins.old self.from × Arrived log.now self.bus.tick self.to × (self.begun ≤ begun_below begins.old (releases log.now)) }
        ensures next { (result.bus ≡ next_bus sheet.now self.bus (serve_turn sheet.now log.now self.bus begins.old).taken) × (result.from ≡ self.from) × (result.to ≡ self.to) }
        ensures begun { result.begun ≡ self.begun + (serve_turn sheet.now log.now self.bus begins.old).taken }
        ensures begins { begins.new ≡ (serve_turn sheet.now log.now self.bus begins.old).begins }
        ensures listed { room.new ≡ replaced_at room.old (release_words * self.begun) (begin_words (message_ticks sheet.now) self.bus.tick numbers.now (taken_by sheet.now log.now self.bus.node self.bus.tick (budget sheet.now self.bus.node) begins.old)) }
    {
        let bus = self.bus;
        let taken = turns::run_turn(sheet, header, log, bus, self.from, self.to, found, begins);
        let count = layout::wide(taken);
        list_begins(
            header.message,
            bus.tick,
            &found[..],
            count,
            numbers,
            2 * self.begun,
            room,
        );
        let next = turns::next_bus(sheet, header, bus, taken);
        Progress {
            bus: next,
            from: self.from,
            to: self.to,
            begun: self.begun + count,
        }
    }
}
