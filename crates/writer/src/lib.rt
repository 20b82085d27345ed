// The writer: a sheet made from tables in a lent buffer. What it answers and writes is given by the definitions of the crate `tables`.
#![tactic(auto)]

ghost use Rattle.std.specs.Prelude.{◌≡◌, ◌++◌, ◌*◌, ◌≤◌, length, drop, IfOk};
ghost use Rattle.tables.specs.Tables.{sum_of};
ghost use Rattle.tables.specs.Lent.{tables_as};
ghost use Rattle.tables.specs.Writing.{cycle_of, contents_refusal, written, write_answer, write_buffer, ReadsBack, WrittenAgain};
ghost use Rattle.model.specs.Limits.{max_nodes, max_streams};
ghost use Rattle.model.specs.Sheet.{body_at};
ghost use Rattle.refusals.specs.Numbers.{answered};
ghost use Rattle.writer.specs.Numbers.{written_numbers};

use model::Answer;
use refusals::{Refusal, refuse_if};
use tables::Tables;

// What was written: how many words, and the full cycle, "C".
#[derive(Clone, Copy, Debug, PartialEq, Eq)]
pub struct Written {
    pub words: u32,
    pub cycle: u32,
}

// An answer of three numbers, for a success.
impl From<Written> for Answer {
    ghost from_gives = { λ done answer. answer ≡ written_numbers done };

    fn from(done: Written) -> Answer {
        Answer {
            number: 0,
            second: done.words,
            third: done.cycle,
        }
    }
}

// The full cycle, "C".
fn cycle_of(tables: &Tables<'_>) -> u32
    requires { (contents_refusal tables.now.message_ticks tables.now.slot_ticks tables.now.counts.now tables.now.budgets.now).number ≡ 0 }
    ensures { result ≡ cycle_of tables.now.message_ticks tables.now.slot_ticks tables.now.counts.now tables.now.budgets.now }
{
    let n = tables.counts.len() as u32;
    entries::sum_up_to(tables.budgets, n) as u32 * tables.message_ticks + n * tables.slot_ticks
}

// The words that the sheet takes.
fn sheet_words(tables: &Tables<'_>) -> usize
    requires { (length tables.now.counts.now ≤ max_nodes) × (sum_of tables.now.counts.now ≤ max_nodes * max_streams) }
    ensures { result ≡ body_at (length tables.now.counts.now) (sum_of tables.now.counts.now) }
{
    let n = tables.counts.len() as u32;
    layout::first_body_at(n) + layout::body_words(entries::sum_up_to(tables.counts, n) as u32)
}

// The words of the sheet in the buffer's first ones: header, contents rows, bodies.
fn write_words(tables: &Tables<'_>, room: &mut [u32])
    requires { (length tables.now.counts.now ≤ max_nodes) × (sum_of tables.now.counts.now ≤ max_nodes * max_streams) × (body_at (length tables.now.counts.now) (sum_of tables.now.counts.now) ≤ length room.old) }
    ensures { room.new ≡ written (tables_as tables.now) ++ drop (length (written (tables_as tables.now))) room.old }
{
    let n = tables.counts.len() as u32;
    fill::put_header(n, tables.message_ticks, tables.slot_ticks, room);
    parts::write_rows(tables, room);
    parts::write_bodies(tables, room);
}

// "Write the sheet": the words written and C, and the sheet in the buffer's first words. What it wrote reads back as the same tables; and
// for the tables of a valid sheet it writes that sheet again.
pub fn write_sheet(tables: &Tables<'_>, room: &mut [u32]) -> Result<Written, Refusal>
    ensures answer { answered written_numbers result ≡ write_answer (tables_as tables.now) (length room.old) }
    ensures buffer { room.new ≡ write_buffer (tables_as tables.now) room.old }
    ensures reads { IfOk result (λ done. ReadsBack (tables_as tables.now) done.words done.cycle room.new) }
    ensures again { WrittenAgain (tables_as tables.now) room.old (answered written_numbers result) room.new }
{
    validation::check_tables(tables)?;
    let words = sheet_words(tables);
    refuse_if(room.len() < words, Refusal::Room)?;
    write_words(tables, room);
    Ok(Written {
        words: words as u32,
        cycle: cycle_of(tables),
    })
}
