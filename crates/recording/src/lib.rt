// The replay that keeps a record of each stream beside the begin ticks.
#![tactic(auto)]

ghost use Rattle.std.specs.Prelude.{◌≡◌, length, IfOk};
ghost use Rattle.model.specs.Sheet.{total_streams, Valid};
ghost use Rattle.model.specs.Answers.{records_answer, records_buffer, records_list};
ghost use Rattle.model.specs.Demand.{WholeReplay, NoneOver};
ghost use Rattle.refusals.specs.Numbers.{checked, answered};
ghost use Rattle.bus.specs.Numbers.{replayed_numbers};
ghost use Rattle.recording.specs.Recording.{records_refusal};

use bus::Replayed;
use model::StreamRecord;
use refusals::{Refusal, refuse_if};

// The number of streams of a sheet.
fn count_streams(sheet: &[u32]) -> usize
    requires { Valid sheet.now }
    ensures { result ≡ total_streams sheet.now }
{
    layout::streams_up_to(sheet, layout::word_at(sheet, 0))
}

// The refusals of the replay with a buffer of so many words and a list of so many records: 1 to 5, 9, 10, 6, then 6 for the list.
#[tactic(auto, using(refusals::proofs::Chains::stops, refusals::proofs::Chains::goes_on), unfolding(crate::specs::Recording::records_refusal, model::specs::Answers::room_refusal))]
fn check_lent(
    sheet: &[u32],
    log: &[u32],
    horizon: u32,
    room: usize,
    list: usize,
) -> Result<(), Refusal>
    ensures { checked result ≡ records_refusal sheet.now log.now horizon room list }
{
    logs::check_replay(sheet, log, horizon, room)?;
    refuse_if(list < count_streams(sheet), Refusal::Room)
}

// The replay with a list of stream records in sheet order, lent beside the buffer of begin ticks. Numbers and refusals as the replay, then 6
// where the list is shorter than the streams. Where it is not refused, demand 3 holds of what it answers and writes, and is read off the list.
pub fn replay_with_records(
    sheet: &[u32],
    log: &[u32],
    horizon: u32,
    room: &mut [u32],
    records: &mut [StreamRecord],
) -> Result<Replayed, Refusal>
    ensures answer { answered replayed_numbers result ≡ records_answer sheet.now log.now horizon (length room.old) (length records.old) }
    ensures buffer { room.new ≡ records_buffer sheet.now log.now horizon (length records.old) room.old }
    ensures records { records.new ≡ records_list sheet.now log.now horizon (length room.old) records.old }
    ensures demand { IfOk result (λ done. WholeReplay sheet.now log.now horizon done.turns done.tick room.new × NoneOver sheet.now log.now horizon records.new) }
{
    check_lent(sheet, log, horizon, room.len(), records.len())?;
    turns::clear(room, log.len() / 2);
    let streams = count_streams(sheet);
    records::clear_records(records, streams);
    let mut limits: [u32; 256] = [0; 256];
    limits::put_limits(sheet, &mut limits[..]);
    let mut found: [usize; 16] = [0; 16];
    let end = recorded::run_to_with_records(
        sheet,
        log,
        horizon,
        &limits[..],
        &mut found[..],
        room,
        records,
    );
    Ok(Replayed {
        turns: end.turns,
        tick: end.tick,
    })
}
