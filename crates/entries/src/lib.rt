// What lent tables of nodes have for a node, and their sums; refusal 4 of a row of counts and budgets, and the tests of a table's length.
#![tactic(auto)]

ghost use Rattle.std.specs.Prelude.{◌≡◌};
ghost use Rattle.model.specs.Limits.{max_nodes};
ghost use Rattle.model.specs.Refusal.{outside, first_of};
ghost use Rattle.refusals.specs.Numbers.{checked};
ghost use Rattle.tables.specs.Tables.{node_entry, sum_up_to};
ghost use Rattle.tables.specs.Writing.{table_row_refusal, lengths_differ};

use layout::{wide, word_at};
use refusals::{Refusal, first_refusal, refuse_if};

// What a table of nodes has for node k; 0 past its end.
pub fn node_entry(table: &[u32], k: u32) -> u32
    ensures { result ≡ node_entry table.now k }
{
    word_at(table, wide(k.saturating_sub(1)))
}

// The sum of what a table has for nodes 1 to k.
#[tactic(auto, using(theory::proofs::Sums::sum_to_none, theory::proofs::Sums::sum_to_split))]
pub fn sum_up_to(table: &[u32], k: u32) -> usize
    ensures { result ≡ sum_up_to table.now k }
{
    let mut sum = 0;
    for i in 1..=k {
        sum += wide(node_entry(table, i));
    }
    sum
}

// A number of nodes out of range.
#[tactic(auto, using(std::proofs::lemmas::Bool::Decides::nat_tests), unfolding(model::specs::Refusal::outside))]
pub fn nodes_outside(n: usize) -> bool
    ensures { result ≡ outside 1 max_nodes n }
{
    n < 1 || 16 < n
}

// Periods, deadlines or jitters that are not as many as the streams.
#[tactic(auto, using(std::proofs::lemmas::Bool::Decides::nat_tests), unfolding(tables::specs::Writing::lengths_differ))]
pub fn lengths_differ(periods: usize, deadlines: usize, jitters: usize, total: usize) -> bool
    ensures { result ≡ lengths_differ periods deadlines jitters total }
{
    periods != total || deadlines != total || jitters != total
}

// Refusal 4 of node k's row.
#[tactic(auto, unfolding(tables::specs::Writing::table_row_refusal))]
fn check_row(counts: &[u32], budgets: &[u32], k: u32) -> Result<(), Refusal>
    ensures { checked result ≡ table_row_refusal counts.now budgets.now k }
{
    let wrong = range::counts_outside(node_entry(counts, k), node_entry(budgets, k));
    refuse_if(wrong, Refusal::Row { node: k })
}

// Refusal 4 of the rows of nodes 1 to n.
pub fn check_rows(counts: &[u32], budgets: &[u32], n: u32) -> Result<(), Refusal>
    ensures { checked result ≡ first_of (table_row_refusal counts.now budgets.now) 1 n }
{
    first_refusal(n, |k| check_row(counts, budgets, k))
}
