// The sheet reader: refusals 1 to 5 with their places, for any words.
#![tactic(auto)]

ghost use Rattle.std.specs.Prelude.{◌≡◌};
ghost use Rattle.model.specs.Refusal.{first_of};
ghost use Rattle.model.specs.Sheet.{stream_refusal, body_refusal, sheet_refusal};
ghost use Rattle.refusals.specs.Numbers.{checked};

use contents::{check_header, check_rows};
use refusals::{Refusal, first_refusal, refuse_if};

// Refusal 5 of stream j of node k.
#[tactic(auto, unfolding(model::specs::Sheet::stream_refusal))]
fn check_stream(sheet: &[u32], k: u32, j: u32) -> Result<(), Refusal>
    ensures { checked result ≡ stream_refusal sheet.now k j }
{
    let stream = bodies::stream_of(sheet, k, j);
    let wrong = range::times_outside(stream.period, stream.deadline, stream.jitter);
    refuse_if(wrong, Refusal::Times { node: k, stream: j })
}

// Refusal 5 of node k's streams.
fn check_body(sheet: &[u32], k: u32) -> Result<(), Refusal>
    ensures { checked result ≡ body_refusal sheet.now k }
{
    first_refusal(
        layout::stream_count(sheet, k),
        |j| check_stream(sheet, k, j),
    )
}

// Refusal 5 of the streams of nodes 1 to n.
fn check_bodies(sheet: &[u32], n: u32) -> Result<(), Refusal>
    ensures { checked result ≡ first_of (body_refusal sheet.now) 1 n }
{
    first_refusal(n, |k| check_body(sheet, k))
}

// Refusals 1 to 5 of a sheet, or none for a valid one.
#[tactic(auto, using(refusals::proofs::Chains::stops, refusals::proofs::Chains::goes_on), unfolding(model::specs::Sheet::sheet_refusal))]
pub fn check_sheet(sheet: &[u32]) -> Result<(), Refusal>
    ensures { checked result ≡ sheet_refusal sheet.now }
{
    check_header(sheet)?;
    let n = layout::word_at(sheet, 0);
    check_rows(sheet, n)?;
    let streams = layout::streams_up_to(sheet, n) as u32;
    let end = layout::contents_words(sheet) + layout::body_words(streams);
    refuse_if(sheet.len() != end, Refusal::Length)?;
    check_bodies(sheet, n)
}
