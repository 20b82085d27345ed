// The refusals of the entries that are lent a log, in their order: those of the sheet, of the log, of the entry itself and of the
// buffer.
#![tactic(auto)]

ghost use Rattle.std.specs.Prelude.{◌≡◌, ◌||◌, ltb};
ghost use Rattle.model.specs.Limits.{max_time};
ghost use Rattle.model.specs.Refusal.{◌or_else◌, outside};
ghost use Rattle.model.specs.Sheet.{nodes, sheet_refusal};
ghost use Rattle.model.specs.Protocol.{releases};
ghost use Rattle.model.specs.Answers.{room_refusal, log_refusal, step_refusal};
ghost use Rattle.refusals.specs.Numbers.{checked};
ghost use Rattle.logs.specs.Replay.{replay_refusal};

use model::Bus;
use reader::check_log;
pub use reader::check_piece;
use refusals::{Refusal, refuse_if};

mod reader; // reader.rt: refusal 9

// A tick or a number of turns too large in a record, or a node that is not on the bus.
pub fn record_is_wrong(sheet: &[u32], bus: Bus) -> bool
    ensures { result ≡ (ltb max_time bus.tick || ltb max_time bus.turns || outside 1 (nodes sheet.now) bus.node) }
{
    let nodes = layout::word_at(sheet, 0);
    1000000000 < bus.tick || 1000000000 < bus.turns || range::is_outside(1, nodes, bus.node)
}

// The refusals of an entry that is lent a log and a buffer of so many words: 1 to 5, 9, then its own, then 6.
#[tactic(auto, using(refusals::proofs::Chains::stops, refusals::proofs::Chains::goes_on), unfolding(model::specs::Answers::room_refusal))]
fn check_input(
    sheet: &[u32],
    log: &[u32],
    own: Result<(), Refusal>,
    room: usize,
) -> Result<(), Refusal>
    ensures { checked result ≡ (sheet_refusal sheet.now or_else log_refusal sheet.now log.now or_else checked own or_else room_refusal (releases log.now) room) }
{
    sheet::check_sheet(sheet)?;
    check_log(sheet, log)?;
    own?;
    refuse_if(room < log.len() / 2, Refusal::Room)
}

// The refusals of one step, with a buffer of so many words: 1 to 5, 9, 16, 6.
#[tactic(auto, unfolding(model::specs::Answers::step_refusal, model::specs::Answers::record_refusal))]
pub fn check_step(sheet: &[u32], log: &[u32], bus: Bus, room: usize) -> Result<(), Refusal>
    ensures { checked result ≡ step_refusal sheet.now log.now bus room }
{
    let own = refuse_if(record_is_wrong(sheet, bus), Refusal::Record);
    check_input(sheet, log, own, room)
}

// The refusals of the replay, with a buffer of so many words: 1 to 5, 9, 10, 6.
#[tactic(auto, unfolding(crate::specs::Replay::replay_refusal, model::specs::Answers::horizon_refusal))]
pub fn check_replay(sheet: &[u32], log: &[u32], horizon: u32, room: usize) -> Result<(), Refusal>
    ensures { checked result ≡ replay_refusal sheet.now log.now horizon room }
{
    let own = refuse_if(1000000000 < horizon, Refusal::Horizon);
    check_input(sheet, log, own, room)
}
