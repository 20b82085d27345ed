// The library for programs in C and Rust: the entries under their plain names, each with the contract of the function that it
// calls, said of its three numbers, since C is answered these. A lent table passes as a pointer to its words and then their number.
#![tactic(auto)]

ghost use Rattle.std.specs.Prelude.{◌≡◌, length, ◌≤◌};
ghost use Rattle.model.specs.Limits.{max_nodes};
ghost use Rattle.model.specs.Sheet.{total_streams, sheet_refusal, OnSheet, Valid};
ghost use Rattle.model.specs.Answers.{one_stream_answer, admit_answer, admit_buffer, replay_answer, replay_buffer, records_answer, records_buffer, records_list, step_answer, step_bus, step_buffer};
ghost use Rattle.model.specs.Demand.{Judged, AllJudged, WholeReplay, NoneOver};
ghost use Rattle.pieces.specs.Pieces.{resume_answer, resume_buffer};
ghost use Rattle.encoding.specs.Words.{checkpoint_in, resume_words, ContinuesIn};
ghost use Rattle.rounds.specs.Answer.{find_answer, find_buffer};
ghost use Rattle.rounds.specs.Least.{LeastBudgets};
ghost use Rattle.tables.specs.Tables.{lent_tables};
ghost use Rattle.tables.specs.Writing.{write_answer, write_buffer, ReadsBack, WrittenAgain};
ghost use Rattle.edits.specs.Edit.{edit_of, edit_answer, edit_sheet, OthersKept};

use model::{Answer, Bus, StreamRecord};
use refusals::{answer_of, answer_of_check};
use tables::Tables;

// Refusals 1 to 5 of a sheet, or 0, 0, 0 for a valid one.
#[unsafe(no_mangle)]
pub extern "C" fn wistorvan_check_sheet(sheet: &[u32]) -> Answer
    ensures { result ≡ sheet_refusal sheet.now }
{
    answer_of_check(sheet::check_sheet(sheet))
}

// "One stream": its listed wait and J. For a stream of a valid sheet, demand 2 holds of what it answers.
#[unsafe(no_mangle)]
pub extern "C" fn wistorvan_one_stream(sheet: &[u32], node: u32, stream: u32) -> Answer
    ensures answer { result ≡ one_stream_answer sheet.now node stream }
    ensures demand { Valid sheet.now → OnSheet sheet.now node stream → Judged sheet.now node stream result }
{
    answer_of(analysis::one_stream(sheet, node, stream))
}

// "Admit": the number of streams and C, and the listed waits in the buffer's first words. For a valid sheet, with room enough, demand 2
// holds of what it answers and writes.
#[unsafe(no_mangle)]
pub extern "C" fn wistorvan_admit(sheet: &[u32], room: &mut [u32]) -> Answer
    ensures answer { result ≡ admit_answer sheet.now (length room.old) }
    ensures buffer { room.new ≡ admit_buffer sheet.now room.old }
    ensures demand { Valid sheet.now → total_streams sheet.now ≤ length room.old → AllJudged sheet.now result room.new }
{
    answer_of(analysis::admit(sheet, room))
}

// "Find the budgets": the sum and the C of the least row of budgets, and the row in the buffer's first sixteen words. For a valid sheet, with
// room enough, what request Five says of the row holds of what it answers and writes.
#[unsafe(no_mangle)]
pub extern "C" fn wistorvan_find_budgets(sheet: &[u32], room: &mut [u32]) -> Answer
    ensures answer { result ≡ find_answer sheet.now (length room.old) }
    ensures buffer { room.new ≡ find_buffer sheet.now room.old }
    ensures least { Valid sheet.now → max_nodes ≤ length room.old → LeastBudgets sheet.now result room.new }
{
    answer_of(budgets::find_budgets(sheet, room))
}

// The replay of a log from tick 0 up to a horizon: turns started, the tick the next would start, and a begin tick for each release
// in the buffer's first words. Where it is not refused, demand 3 holds of what it answers and writes.
#[unsafe(no_mangle)]
pub extern "C" fn wistorvan_replay(
    sheet: &[u32],
    log: &[u32],
    horizon: u32,
    room: &mut [u32],
) -> Answer
    ensures answer { result ≡ replay_answer sheet.now log.now horizon (length room.old) }
    ensures buffer { room.new ≡ replay_buffer sheet.now log.now horizon room.old }
    ensures demand { result.number ≡ 0 → WholeReplay sheet.now log.now horizon result.second result.third room.new }
{
    answer_of(bus::replay(sheet, log, horizon, room))
}

// The replay with a list of stream records in sheet order: messages begun, longest wait, and how many waited longer than the listed wait.
// Numbers and refusals as the replay, then 6 where the list is shorter than the streams. Where it is not refused, demand 3 holds of what it
// answers and writes, and is read off the list.
#[unsafe(no_mangle)]
pub extern "C" fn wistorvan_replay_records(
    sheet: &[u32],
    log: &[u32],
    horizon: u32,
    room: &mut [u32],
    records: &mut [StreamRecord],
) -> Answer
    ensures answer { result ≡ records_answer sheet.now log.now horizon (length room.old) (length records.old) }
    ensures buffer { room.new ≡ records_buffer sheet.now log.now horizon (length records.old) room.old }
    ensures records { records.new ≡ records_list sheet.now log.now horizon (length room.old) records.old }
    ensures demand { result.number ≡ 0 → WholeReplay sheet.now log.now horizon result.second result.third room.new × NoneOver sheet.now log.now horizon records.new }
{
    answer_of(recording::replay_with_records(sheet, log, horizon, room, records))
}

// "One step": changes the lent bus record in place. Thin: the turn itself takes the record by value.
#[unsafe(no_mangle)]
pub extern "C" fn wistorvan_step(
    sheet: &[u32],
    log: &[u32],
    rec: &mut Bus,
    room: &mut [u32],
) -> Answer
    ensures numbers { result ≡ step_answer sheet.now log.now rec.old room.old }
    ensures record { rec.new ≡ step_bus sheet.now log.now rec.old room.old }
    ensures buffer { room.new ≡ step_buffer sheet.now log.now rec.old room.old }
{
    match bus::turn(sheet, log, *rec, room) {
        Ok(turned) => {
            *rec = turned.bus;
            turned.into()
        }
        Err(refused) => refused.refusal.into(),
    }
}

// A piece of a log that is replayed as the day goes: the messages begun in it and the turns so far, and release number and begin tick of each
// in the buffer's first words. The record is lent as a table of words, and the one to go on from stands there after it. A record that pieces
// made stands for the log that they were a cutting of, and so does the one after it.
#[unsafe(no_mangle)]
pub extern "C" fn wistorvan_resume(
    sheet: &[u32],
    piece: &[u32],
    horizon: u32,
    checkpoint: &mut [u32; 774],
    room: &mut [u32],
) -> Answer
    ensures answer { result ≡ resume_answer sheet.now (checkpoint_in checkpoint.old) piece.now horizon (length room.old) }
    ensures checkpoint { checkpoint.new ≡ resume_words sheet.now checkpoint.old piece.now horizon (length room.old) }
    ensures buffer { room.new ≡ resume_buffer sheet.now (checkpoint_in checkpoint.old) piece.now horizon room.old }
    ensures whole { ContinuesIn sheet.now checkpoint.old piece.now result checkpoint.new room.new }
{
    answer_of(encoding::resume_in(sheet, piece, horizon, checkpoint, room))
}

// "Write the sheet": a sheet made from tables, in the buffer's first words; the words written and C. What it wrote reads back as the same
// tables; and for the tables of a valid sheet it writes that sheet again.
#[unsafe(no_mangle)]
pub extern "C" fn wistorvan_write_sheet(
    message_ticks: u32,
    slot_ticks: u32,
    counts: &[u32],
    budgets: &[u32],
    periods: &[u32],
    deadlines: &[u32],
    jitters: &[u32],
    room: &mut [u32],
) -> Answer
    ensures answer { result ≡ write_answer (lent_tables message_ticks slot_ticks counts.now budgets.now periods.now deadlines.now jitters.now) (length room.old) }
    ensures buffer { room.new ≡ write_buffer (lent_tables message_ticks slot_ticks counts.now budgets.now periods.now deadlines.now jitters.now) room.old }
    ensures reads { result.number ≡ 0 → ReadsBack (lent_tables message_ticks slot_ticks counts.now budgets.now periods.now deadlines.now jitters.now) result.second result.third room.new }
    ensures again { WrittenAgain (lent_tables message_ticks slot_ticks counts.now budgets.now periods.now deadlines.now jitters.now) room.old result room.new }
{
    let tables = Tables {
        message_ticks,
        slot_ticks,
        counts,
        budgets,
        periods,
        deadlines,
        jitters,
    };
    answer_of(writer::write_sheet(&tables, room))
}

// "The recorder is a guest on the owner's sheet": the period, the deadline and the jitter of a stream of our own node set in the lent sheet, and
// no other word. The sheet after a success is valid, and the one-stream answers on all other nodes are as they were.
#[unsafe(no_mangle)]
pub extern "C" fn wistorvan_edit_stream(
    sheet: &mut [u32],
    own_node: u32,
    node: u32,
    stream: u32,
    period: u32,
    deadline: u32,
    jitter: u32,
) -> Answer
    ensures answer { result ≡ edit_answer sheet.old (edit_of own_node node stream period deadline jitter) }
    ensures sheet { sheet.new ≡ edit_sheet sheet.old (edit_of own_node node stream period deadline jitter) }
    ensures valid { result.number ≡ 0 → Valid sheet.new }
    ensures others { OthersKept sheet.old sheet.new own_node }
{
    let edited = editor::edit_stream(sheet, own_node, node, stream, period, deadline, jitter);
    answer_of_check(edited)
}
