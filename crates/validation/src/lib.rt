// The tables that a sheet is made from are checked: refusals 2 to 5, for any tables of any lengths.
#![tactic(auto)]

ghost use Rattle.std.specs.Prelude.{◌≡◌, ◌+◌, ◌≤◌, ◌<◌, ◌^◌, length};
ghost use Rattle.model.specs.Limits.{max_nodes};
ghost use Rattle.model.specs.Refusal.{first_of};
ghost use Rattle.refusals.specs.Numbers.{checked};
ghost use Rattle.tables.specs.Lent.{tables_as};
ghost use Rattle.tables.specs.Writing.{table_stream_refusal, table_body_refusal, contents_refusal, tables_refusal};

use entries::{check_rows, lengths_differ, node_entry, nodes_outside, sum_up_to};
use layout::{wide, word_at};
use refusals::{Refusal, first_refusal, refuse_if};
use tables::Tables;

// Refusals 2 and 3, and 4 of the budgets' length and of the rows.
#[tactic(auto, using(refusals::proofs::Chains::stops, refusals::proofs::Chains::goes_on), unfolding(tables::specs::Writing::contents_refusal))]
fn check_contents(tables: &Tables<'_>) -> Result<(), Refusal>
    ensures { checked result ≡ contents_refusal tables.now.message_ticks tables.now.slot_ticks tables.now.counts.now tables.now.budgets.now }
{
    let nodes = tables.counts.len();
    refuse_if(nodes_outside(nodes), Refusal::Nodes)?;
    let ticks_wrong = range::ticks_outside(tables.message_ticks, tables.slot_ticks);
    refuse_if(ticks_wrong, Refusal::Ticks)?;
    refuse_if(tables.budgets.len() != nodes, Refusal::Length)?;
    check_rows(tables.counts, tables.budgets, nodes as u32)
}

// Refusal 5 of stream j of node k, which `before` streams come before.
#[tactic(auto, unfolding(tables::specs::Writing::table_stream_refusal))]
fn check_stream(tables: &Tables<'_>, before: usize, k: u32, j: u32) -> Result<(), Refusal>
    requires { (1 ≤ j) × (before + j < 2 ^ 64) }
    ensures { checked result ≡ table_stream_refusal tables.now.periods.now tables.now.deadlines.now tables.now.jitters.now before k j }
{
    let at = before + wide(j - 1);
    let wrong = range::times_outside(
        word_at(tables.periods, at),
        word_at(tables.deadlines, at),
        word_at(tables.jitters, at),
    );
    refuse_if(wrong, Refusal::Times { node: k, stream: j })
}

// Refusal 5 of node k's streams, `count` of them.
fn check_body(tables: &Tables<'_>, before: usize, k: u32, count: u32) -> Result<(), Refusal>
    requires { before + count < 2 ^ 64 }
    ensures { checked result ≡ first_of (table_stream_refusal tables.now.periods.now tables.now.deadlines.now tables.now.jitters.now before k) 1 count }
{
    let check = |j: u32|
        requires { (1 ≤ j) × (before + j < 2 ^ 64) }
    { check_stream(tables, before, k, j) };
    first_refusal(count, check)
}

// Refusal 5 of the streams of nodes 1 to n.
#[tactic(auto, using(refusals::proofs::Chains::rest_stops, refusals::proofs::Chains::rest_goes_on, model::proofs::Sheet::Refusals::rest_start, model::proofs::Sheet::Refusals::rest_end, theory::proofs::Sums::sum_to_none, theory::proofs::Sums::sum_to_more), unfolding(tables::specs::Writing::table_body_refusal))]
fn check_bodies(tables: &Tables<'_>, n: u32) -> Result<(), Refusal>
    ensures { checked result ≡ first_of (table_body_refusal tables.now.counts.now tables.now.periods.now tables.now.deadlines.now tables.now.jitters.now) 1 n }
{
    let mut before = 0;
    for i in 0..n {
        let count = node_entry(tables.counts, i + 1);
        check_body(tables, before, i + 1, count)?;
        before += wide(count);
    }
    Ok(())
}

// Refusals 2 to 5 of tables, or none for tables that make a valid sheet.
#[tactic(auto, using(refusals::proofs::Chains::stops, refusals::proofs::Chains::goes_on), unfolding(tables::specs::Writing::tables_refusal))]
pub fn check_tables(tables: &Tables<'_>) -> Result<(), Refusal>
    ensures { checked result ≡ tables_refusal (tables_as tables.now) }
{
    check_contents(tables)?;
    let n = tables.counts.len() as u32;
    let total = sum_up_to(tables.counts, n);
    let differ = lengths_differ(
        tables.periods.len(),
        tables.deadlines.len(),
        tables.jitters.len(),
        total,
    );
    refuse_if(differ, Refusal::Length)?;
    check_bodies(tables, n)
}
