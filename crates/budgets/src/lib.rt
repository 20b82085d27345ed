// "Find the budgets": the smallest workable budgets of a line, in rounds. A row of budgets is an array by value, which is copied before each
// round.
#![tactic(auto)]

ghost use Rattle.std.specs.Prelude.{◌≡◌, ◌≤◌, length};
ghost use Rattle.model.specs.Limits.{max_nodes};
ghost use Rattle.model.specs.Sheet.{Valid};
ghost use Rattle.model.specs.Refusal.{success, ◌or_else◌};
ghost use Rattle.model.specs.Answers.{buffer_after};
ghost use Rattle.rounds.specs.Rounds.{row_sum, row_cycle, stuck_refusal, last_row};
ghost use Rattle.rounds.specs.Answer.{find_answer, find_buffer};
ghost use Rattle.rounds.specs.Least.{LeastBudgets};
ghost use Rattle.rows.specs.Row.{Row};
ghost use Rattle.refusals.specs.Numbers.{answered};
ghost use Rattle.budgets.specs.Numbers.{row_numbers};

use model::Answer;
use refusals::{Refusal, refuse_if};
use rows::{Round, first_row, row_cycle, row_sum, run_round};
use sheet::check_sheet;

// What is told of the least row of budgets, which stands in the room: its sum and its full cycle.
#[derive(Clone, Copy, Debug, PartialEq, Eq)]
pub struct LeastRow {
    pub sum: u32,
    pub cycle: u32,
}

impl From<LeastRow> for Answer {
    ghost from_gives = { λ found answer. answer ≡ row_numbers found };

    fn from(found: LeastRow) -> Answer {
        Answer {
            number: 0,
            second: found.sum,
            third: found.cycle,
        }
    }
}

// What is told of a row with which no stream is late, which goes to the room's first words.
fn finish(sheet: &[u32], row: [u32; 16], room: &mut [u32]) -> LeastRow
    requires { Valid sheet.now × Row sheet.now row × (max_nodes ≤ length room.old) }
    ensures answer { row_numbers result ≡ success (row_sum sheet.now row) (row_cycle sheet.now row) }
    ensures buffer { room.new ≡ buffer_after (row_numbers result) row room.old }
{
    fill::put(&row, room);
    LeastRow {
        sum: row_sum(sheet, row),
        cycle: row_cycle(sheet, row),
    }
}

// The rounds, until none is late or a late node has 16 already. "The row of sixteen budgets is copied before each round, and the
// copy is what the round is judged by."
fn run_rounds(sheet: &[u32], room: &mut [u32]) -> Result<LeastRow, Refusal>
    requires { Valid sheet.now × (max_nodes ≤ length room.old) }
    ensures answer { answered row_numbers result ≡ (stuck_refusal sheet.now (last_row sheet.now) or_else success (row_sum sheet.now (last_row sheet.now)) (row_cycle sheet.now (last_row sheet.now))) }
    ensures buffer { room.new ≡ buffer_after (answered row_numbers result) (last_row sheet.now) room.old }
{
    let mut row = first_row(sheet);
    // No count: the rounds end by what one of them finds.
    loop {
        let copy = row;
        match run_round(sheet, copy, &mut row) {
            Round::Stuck { node } => {
                return Err(Refusal::Stuck { node });
            }
            Round::Late => {}
            Round::Settled => {
                return Ok(finish(sheet, copy, room));
            }
        }
    }
}

// "Find the budgets": the row's sum and its C; the row in the room's first sixteen words. Refusals 1 to 5, 6, 11. For a valid sheet, with
// room enough, what request Five says of the row holds of what it answers and writes.
pub fn find_budgets(sheet: &[u32], room: &mut [u32]) -> Result<LeastRow, Refusal>
    ensures answer { answered row_numbers result ≡ find_answer sheet.now (length room.old) }
    ensures buffer { room.new ≡ find_buffer sheet.now room.old }
    ensures least { Valid sheet.now → max_nodes ≤ length room.old → LeastBudgets sheet.now (answered row_numbers result) room.new }
{
    check_sheet(sheet)?;
    refuse_if(room.len() < 16, Refusal::Room)?;
    run_rounds(sheet, room)
}
