// A stream that is asked for by its node and its number: what is refused before anything is done with it.
#![tactic(auto)]

ghost use Rattle.std.specs.Prelude.{◌≡◌, ◌||◌};
ghost use Rattle.model.specs.Refusal.{outside, ◌or_else◌};
ghost use Rattle.model.specs.Sheet.{nodes, stream_count, sheet_refusal};
ghost use Rattle.model.specs.Answers.{unknown_refusal};
ghost use Rattle.refusals.specs.Numbers.{checked};

use layout::{stream_count, word_at};
use range::is_outside;
use refusals::{Refusal, refuse_if};
use sheet::check_sheet;

// A node or a stream of it that the sheet has not.
fn is_unknown(sheet: &[u32], k: u32, j: u32) -> bool
    ensures { result ≡ (outside 1 (nodes sheet.now) k || outside 1 (stream_count sheet.now k) j) }
{
    is_outside(1, word_at(sheet, 0), k) || is_outside(1, stream_count(sheet, k), j)
}

// Refusals 1 to 5 of the sheet, and then 8 of the stream, with its place as asked.
#[tactic(auto, using(refusals::proofs::Chains::stops, refusals::proofs::Chains::goes_on), unfolding(model::specs::Answers::unknown_refusal))]
pub fn check_asked(sheet: &[u32], node: u32, stream: u32) -> Result<(), Refusal>
    ensures { checked result ≡ (sheet_refusal sheet.now or_else unknown_refusal sheet.now node stream) }
{
    check_sheet(sheet)?;
    let unknown = is_unknown(sheet, node, stream);
    refuse_if(unknown, Refusal::Unknown { node, stream })
}
