// The replay by pieces (document 02, "Feed the replay as the day goes"): the record of a replay goes in with a piece of the log and a new
// horizon, and is handed back by value.
#![tactic(auto)]

ghost use Rattle.std.specs.Prelude.{◌≡◌, ◌*◌, ◌≤◌, ◌<◌, ◌++◌, length, drop, OnErr, MatchResult};
ghost use Rattle.model.specs.Limits.{release_words, max_time, max_waiting};
ghost use Rattle.model.specs.Refusal.{success};
ghost use Rattle.model.specs.Protocol.{releases, none_begun, run};
ghost use Rattle.model.specs.Trace.{run_words, unbegun};
ghost use Rattle.queue.specs.Queue.{ValidNode, RisingFrom};
ghost use Rattle.pieces.specs.Pieces.{fresh_checkpoint, with_release, emptied, holding, piece_end, piece_words, piece_checkpoint, resume_refusal, resume_answer, resume_checkpoint, resume_buffer, resumed_numbers, outcome_of, Continues};
ghost use Rattle.refusals.specs.Numbers.{answered_with};

use check::check_resume;
use model::Bus;
use open::{open_log, open_numbers};
use refusals::Refused;
use trace::run_log;

mod check; // check.rt: the refusals of a piece
mod open; // open.rt: what a piece is run over

// What stands for the begin tick of a release that has not begun.
const NOT_BEGUN: u32 = u32::MAX;

// What a replay that is run piece by piece hands on from one piece to the next (document 02, "Seven": the "replay's record"): the horizon
// that it has come to, the bus record of the next turn, the number of releases so far, and the messages that wait, as many as `waiting`
// says. The message at place i is release `numbers[i]`, queued at `ticks[i]`, of the stream with running number `streams[i]`.
#[derive(Clone, Copy)]
pub struct Checkpoint {
    pub horizon: u32,
    pub bus: Bus,
    pub releases: u32,
    pub waiting: u32,
    pub numbers: [u32; 256],
    pub ticks: [u32; 256],
    pub streams: [u32; 256],
}

// What a piece did: how many messages began in it, the turns so far, and the record to go on from.
#[derive(Clone, Copy)]
pub struct Resumed {
    pub begun: u32,
    pub turns: u32,
    pub checkpoint: Checkpoint,
}

// The record with nothing waiting.
fn empty(horizon: u32, bus: Bus, releases: u32) -> Checkpoint
    ensures { result ≡ emptied horizon bus releases }
{
    Checkpoint {
        horizon,
        bus,
        releases,
        waiting: 0,
        numbers: [0; 256],
        ticks: [0; 256],
        streams: [0; 256],
    }
}

// The record with the releases that have not begun waiting, in log order from the first place.
#[tactic(auto, using(theory::proofs::Holding::holding_few), unfolding(theory::specs::Listing::holding_below))]
fn hold_unbegun(start: Checkpoint, log: &[u32], numbers: &[u32], begins: &[u32]) -> Checkpoint
    requires start_value { (start ≡ emptied start.horizon start.bus start.releases) × (length begins.now ≤ max_waiting) }
    requires log_value { (releases log.now ≡ length begins.now) × (length numbers.now ≡ length begins.now) }
    ensures { result ≡ holding start log.now numbers.now (unbegun begins.now) }
{
    let mut c = start;
    for (i, begin) in begins.iter().enumerate() {
        if *begin == NOT_BEGUN {
            c = c.add_release(numbers[i], log[2 * i], log[2 * i + 1]);
        }
    }
    c
}

// Runs the turns of a log that start before a horizon, and hands back the record, with so many releases, in which those that have not begun
// wait.
fn run_open(
    sheet: &[u32],
    log: &[u32],
    numbers: &[u32],
    held: usize,
    start: Bus,
    horizon: u32,
    total: u32,
    room: &mut [u32],
) -> Resumed
    requires valid_node { ValidNode sheet.now start.node × (start.turns ≤ max_time) × (horizon ≤ max_time) × RisingFrom log.now held × (held ≤ releases log.now) }
    requires log_bound { (releases log.now ≤ max_waiting) × (length numbers.now ≡ releases log.now) × (release_words * releases log.now ≤ length room.old) }
    ensures answer { resumed_numbers result ≡ success (releases (run_words sheet.now log.now numbers.now horizon horizon (none_begun log.now start))) (run sheet.now log.now horizon horizon (none_begun log.now start)).bus.turns }
    ensures checkpoint { result.checkpoint ≡ holding (emptied horizon (run sheet.now log.now horizon horizon (none_begun log.now start)).bus total) log.now numbers.now (unbegun (run sheet.now log.now horizon horizon (none_begun log.now start)).begins) }
    ensures buffer { room.new ≡ run_words sheet.now log.now numbers.now horizon horizon (none_begun log.now start) ++ drop (length (run_words sheet.now log.now numbers.now horizon horizon (none_begun log.now start))) room.old }
{
    let mut begins: [u32; 256] = [NOT_BEGUN; 256];
    let mut found: [usize; 16] = [0; 16];
    let end = run_log(
        sheet,
        log,
        held,
        start,
        horizon,
        numbers,
        &mut found[..],
        &mut begins[..],
        room,
    );
    let count = log.len() / 2;
    let next = empty(horizon, end.bus, total);
    let checkpoint = hold_unbegun(next, log, numbers, &begins[..count]);
    Resumed {
        begun: end.begun as u32,
        turns: end.bus.turns,
        checkpoint,
    }
}

impl Checkpoint {
    // A fresh record: nothing has been released.
    pub fn fresh() -> Checkpoint
        ensures { result ≡ fresh_checkpoint }
    {
        let first = Bus {
            tick: 0,
            node: 1,
            turns: 0,
        };
        empty(0, first, 0)
    }

    // The record with a release waiting at the first free place.
    pub fn add_release(self, number: u32, tick: u32, stream: u32) -> Checkpoint
        requires { self.waiting < max_waiting }
        ensures { result ≡ with_release self number tick stream }
    {
        let mut c = self;
        let at = layout::wide(c.waiting);
        c.numbers[at] = number;
        c.ticks[at] = tick;
        c.streams[at] = stream;
        c.waiting += 1;
        c
    }

    // Runs a piece that is not refused.
    fn run_piece(self, sheet: &[u32], piece: &[u32], horizon: u32, room: &mut [u32]) -> Resumed
        requires { (resume_refusal sheet.now self piece.now horizon (length room.old)).number ≡ 0 }
        ensures answer { resumed_numbers result ≡ success (releases (piece_words sheet.now self piece.now horizon)) (piece_end sheet.now self piece.now horizon).bus.turns }
        ensures checkpoint { result.checkpoint ≡ piece_checkpoint sheet.now self piece.now horizon }
        ensures buffer { room.new ≡ piece_words sheet.now self piece.now horizon ++ drop (length (piece_words sheet.now self piece.now horizon)) room.old }
    {
        let count = piece.len() / 2;
        let held = layout::wide(self.waiting);
        let all = held + count;
        let mut log: [u32; 512] = [0; 512];
        open_log(self, piece, &mut log[..]);
        let mut numbers: [u32; 256] = [0; 256];
        open_numbers(self, count, &mut numbers[..]);
        let total = self.releases + count as u32;
        run_open(
            sheet,
            &log[..2 * all],
            &numbers[..all],
            held,
            self.bus,
            horizon,
            total,
            room,
        )
    }

    // A piece: its releases, with ticks from the record's horizon up to below the new one, and the new horizon. Answers how many messages
    // began in it and the turns so far, with the record to go on from; the buffer's first words have release number and begin tick of
    // each message begun, in the order begun. A record that pieces made stands for the log that they were a cutting of, and so does the
    // one handed back. A refusal hands the record back as it was.
    pub fn resume(
        self,
        sheet: &[u32],
        piece: &[u32],
        horizon: u32,
        room: &mut [u32],
    ) -> Result<Resumed, Refused<Checkpoint>>
        ensures answer { answered_with resumed_numbers result ≡ resume_answer sheet.now self piece.now horizon (length room.old) }
        ensures checkpoint { MatchResult result (λ resumed. resumed.checkpoint ≡ resume_checkpoint sheet.now self piece.now horizon (length room.old)) (λ refused. refused.kept ≡ resume_checkpoint sheet.now self piece.now horizon (length room.old)) }
        ensures refused { OnErr result (resume_checkpoint sheet.now self piece.now horizon (length room.old) ≡ self) }
        ensures buffer { room.new ≡ resume_buffer sheet.now self piece.now horizon room.old }
        ensures whole { Continues sheet.now self piece.now (outcome_of result) room.new }
    {
        match check_resume(sheet, self, piece, horizon, room.len()) {
            Ok(()) => Ok(self.run_piece(sheet, piece, horizon, room)),
            Err(refusal) => Err(Refused {
                refusal,
                kept: self,
            }),
        }
    }
}
