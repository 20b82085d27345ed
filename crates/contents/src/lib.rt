// The contents of a sheet are checked: refusals 1 to 4 of its header and its rows, for any words.
#![tactic(auto)]

ghost use Rattle.std.specs.Prelude.{◌≡◌, ◌≤◌};
ghost use Rattle.model.specs.Limits.{max_nodes};
ghost use Rattle.model.specs.Refusal.{outside, first_of};
ghost use Rattle.model.specs.Sheet.{word, nodes, body_place, row_wrong, row_refusal, header_refusal};
ghost use Rattle.refusals.specs.Numbers.{checked};

use refusals::{Refusal, refuse_if};

// A word of the sheet out of range.
fn word_outside(sheet: &[u32], i: usize, least: u32, most: u32) -> bool
    ensures { result ≡ outside least most (word sheet.now i) }
{
    range::is_outside(least, most, layout::word_at(sheet, i))
}

// Refusals 1 to 3, and 4 for contents that are cut short.
#[tactic(auto, using(refusals::proofs::Chains::stops, refusals::proofs::Chains::goes_on), unfolding(model::specs::Sheet::header_refusal))]
pub fn check_header(sheet: &[u32]) -> Result<(), Refusal>
    ensures { checked result ≡ header_refusal sheet.now }
{
    refuse_if(sheet.len() < 3, Refusal::Header)?;
    refuse_if(word_outside(sheet, 0, 1, 16), Refusal::Nodes)?;
    let message = layout::word_at(sheet, 1);
    let slot = layout::word_at(sheet, 2);
    refuse_if(range::ticks_outside(message, slot), Refusal::Ticks)?;
    refuse_if(sheet.len() < layout::contents_words(sheet), Refusal::Length)
}

// A wrong place, stream count or budget in node k's row, where the body must stand at `at`.
#[tactic(auto, using(std::proofs::lemmas::Bool::Decides::nat_tests), unfolding(model::specs::Sheet::row_wrong))]
fn row_is_wrong(sheet: &[u32], k: u32, at: usize) -> bool
    requires { at ≡ body_place sheet.now k }
    ensures { result ≡ row_wrong sheet.now k }
{
    let place = layout::wide(layout::place_of(sheet, k));
    let count = layout::stream_count(sheet, k);
    let budget = layout::budget_of(sheet, k);
    place != at || range::counts_outside(count, budget)
}

// Refusal 4 of node k's row.
#[tactic(auto, unfolding(model::specs::Sheet::row_refusal))]
fn check_row(sheet: &[u32], k: u32, at: usize) -> Result<(), Refusal>
    requires { at ≡ body_place sheet.now k }
    ensures { checked result ≡ row_refusal sheet.now k }
{
    refuse_if(row_is_wrong(sheet, k, at), Refusal::Row { node: k })
}

// Refusal 4 of the rows of nodes 1 to n.
#[tactic(auto, using(refusals::proofs::Chains::rest_stops, model::proofs::Sheet::Refusals::rest_end))]
pub fn check_rows(sheet: &[u32], n: u32) -> Result<(), Refusal>
    requires { (n ≡ nodes sheet.now) × (n ≤ max_nodes) }
    ensures { checked result ≡ first_of (row_refusal sheet.now) 1 n }
{
    let mut at = layout::contents_words(sheet);
    for i in 0..n {
        check_row(sheet, i + 1, at)?;
        at += layout::body_words(layout::stream_count(sheet, i + 1));
    }
    Ok(())
}
