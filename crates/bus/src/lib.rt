// The bus: one step with the record by value, and the replay.
#![tactic(auto)]

ghost use Rattle.std.specs.Prelude.{◌≡◌, length, IfOk, OnErr, MatchResult};
ghost use Rattle.model.specs.declared.Answer.{Answer};
ghost use Rattle.model.specs.Demand.{WholeReplay};
ghost use Rattle.model.specs.Answers.{step_answer, step_bus, step_buffer, replay_answer, replay_buffer};
ghost use Rattle.refusals.specs.Numbers.{answered, answered_with};
ghost use Rattle.bus.specs.Numbers.{turned_numbers, replayed_numbers};

use logs::{check_replay, check_step};
use model::{Answer, Bus};
use queue::{arrived_by, next_unbegun};
use refusals::{Refusal, Refused};
use runs::run_to;
use turns::{clear, header_of, next_bus, run_turn};

// What one step did: how many messages it took, and the bus record after it.
#[derive(Clone, Copy)]
pub struct Turned {
    pub taken: u32,
    pub bus: Bus,
}

// What a replay did: how many turns it started, and the tick at which the next would start.
#[derive(Clone, Copy, Debug, PartialEq, Eq)]
pub struct Replayed {
    pub turns: u32,
    pub tick: u32,
}

// An answer of three numbers, for a step.
impl From<Turned> for Answer {
    ghost from_gives = { λ turned answer. answer ≡ turned_numbers turned };

    fn from(turned: Turned) -> Answer {
        Answer {
            number: 0,
            second: turned.taken,
            third: turned.bus.tick,
        }
    }
}

// An answer of three numbers, for a replay.
impl From<Replayed> for Answer {
    ghost from_gives = { λ replayed answer. answer ≡ replayed_numbers replayed };

    fn from(replayed: Replayed) -> Answer {
        Answer {
            number: 0,
            second: replayed.turns,
            third: replayed.tick,
        }
    }
}

// One step, with the bus record by value. A refusal hands the record back as it was.
pub fn turn(sheet: &[u32], log: &[u32], bus: Bus, room: &mut [u32]) -> Result<Turned, Refused<Bus>>
    ensures numbers { answered_with turned_numbers result ≡ step_answer sheet.now log.now bus room.old }
    ensures record { MatchResult result (λ turned. turned.bus ≡ step_bus sheet.now log.now bus room.old) (λ refused. refused.kept ≡ step_bus sheet.now log.now bus room.old) }
    ensures refused { OnErr result (step_bus sheet.now log.now bus room.old ≡ bus) }
    ensures buffer { room.new ≡ step_buffer sheet.now log.now bus room.old }
{
    if let Err(refusal) = check_step(sheet, log, bus, room.len()) {
        return Err(Refused { refusal, kept: bus });
    }
    let from = next_unbegun(&room[..], 0, log.len() / 2);
    let to = arrived_by(log, bus.tick, 0);
    let header = header_of(sheet);
    let mut found: [usize; 16] = [0; 16];
    let taken = run_turn(sheet, header, log, bus, from, to, &mut found[..], room);
    let next = next_bus(sheet, header, bus, taken);
    Ok(Turned { taken, bus: next })
}

// The replay of a log from tick 0 up to a horizon. Where it is not refused, demand 3 holds of what it answers and writes.
pub fn replay(
    sheet: &[u32],
    log: &[u32],
    horizon: u32,
    room: &mut [u32],
) -> Result<Replayed, Refusal>
    ensures answer { answered replayed_numbers result ≡ replay_answer sheet.now log.now horizon (length room.old) }
    ensures buffer { room.new ≡ replay_buffer sheet.now log.now horizon room.old }
    ensures demand { IfOk result (λ done. WholeReplay sheet.now log.now horizon done.turns done.tick room.new) }
{
    check_replay(sheet, log, horizon, room.len())?;
    clear(room, log.len() / 2);
    let mut found: [usize; 16] = [0; 16];
    let end = run_to(sheet, log, horizon, &mut found[..], room);
    Ok(Replayed {
        turns: end.turns,
        tick: end.tick,
    })
}
