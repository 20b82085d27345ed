// One round of "Find the budgets": a row of budgets, its sum and its full cycle, and what a round makes of it. A row is an array by value: a
// round judges by the copy that it is handed, while it raises the row that it is lent.
#![tactic(auto)]

ghost use Rattle.std.specs.Prelude.{◌≡◌, not, ◌≤◌, eqb};
ghost use Rattle.model.specs.Sheet.{nodes, Valid};
ghost use Rattle.model.specs.Answers.{node_late_with};
ghost use Rattle.interference.specs.InRange.{CycleAndBudget};
ghost use Rattle.rounds.specs.Rounds.{row_sum, row_cycle, first_row, raised, stuck_refusal, goes_on};
ghost use Rattle.rows.specs.Row.{Row, stuck_of, is_late};

use layout::{stream_count, wide, word_at};
use model::Verdict;
use verdicts::verdict_with;

// True where node k has a late stream, with that full cycle and budget.
fn node_late(sheet: &[u32], cycle: u32, budget: u32, k: u32) -> bool
    requires { Valid sheet.now × (1 ≤ k) × (k ≤ nodes sheet.now) × CycleAndBudget cycle budget }
    ensures { result ≡ not (eqb (node_late_with sheet.now cycle budget k).number 0) }
{
    for j in 1..=stream_count(sheet, k) {
        if let Verdict::Late = verdict_with(sheet, cycle, budget, k, j) {
            return true;
        }
    }
    false
}

// "start with budget 1 everywhere"; the words past the last node are 0.
pub fn first_row(sheet: &[u32]) -> [u32; 16]
    requires { Valid sheet.now }
    ensures { result ≡ first_row sheet.now }
{
    let n = wide(word_at(sheet, 0));
    let mut row = [0u32; 16];
    row[..n].fill(1);
    row
}

// "the row's sum".
pub fn row_sum(sheet: &[u32], row: [u32; 16]) -> u32
    requires { Valid sheet.now × Row sheet.now row }
    ensures { result ≡ row_sum sheet.now row }
{
    let n = wide(word_at(sheet, 0));
    row[..n].iter().sum()
}

// "its C".
pub fn row_cycle(sheet: &[u32], row: [u32; 16]) -> u32
    requires { Valid sheet.now × Row sheet.now row }
    ensures { result ≡ row_cycle sheet.now row }
{
    row_sum(sheet, row) * word_at(sheet, 1) + word_at(sheet, 0) * word_at(sheet, 2)
}

// What a round finds: the node that refusal 11 names, the first late one that has 16 already; or else that streams are late, and each node of
// theirs got one more; or that no stream is.
#[derive(Clone, Copy, Debug, PartialEq, Eq)]
pub enum Round {
    Stuck { node: u32 },
    Late,
    Settled,
}

// One round: every node is judged by the row that is handed over by value, and each with a late stream gets one more in the row that is lent.
pub fn run_round(sheet: &[u32], row: [u32; 16], next: &mut [u32]) -> Round
    requires { Valid sheet.now × Row sheet.now row × (next.old ≡ row) }
    ensures stuck { stuck_of result ≡ stuck_refusal sheet.now row }
    ensures late { is_late result ≡ goes_on sheet.now row }
    ensures row { (stuck_of result).number ≡ 0 → next.new ≡ raised sheet.now row }
{
    let cycle = row_cycle(sheet, row);
    let mut late = false;
    for i in 0..word_at(sheet, 0) {
        let place = wide(i);
        let budget = row[place];
        let here = node_late(sheet, cycle, budget, i + 1);
        let full = budget >= 16;
        if here && full {
            return Round::Stuck { node: i + 1 };
        }
        next[place] = budget + u32::from(here);
        late |= here;
    }
    if late { Round::Late } else { Round::Settled }
}
