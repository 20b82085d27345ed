// The refusals of a piece, in their order: those of the sheet, of the record, of the piece, of the horizon, of the places and of the buffer.
ghost use Rattle.std.specs.Prelude.{◌≡◌};
ghost use Rattle.pieces.specs.Pieces.{checkpoint_refusal, resume_refusal};
ghost use Rattle.refusals.specs.Numbers.{checked};

use crate::Checkpoint;
use places::{check_space, check_waiting, counts_are_wrong};
use refusals::{Refusal, refuse_if};

// Refusal 16 of a record.
#[tactic(auto, using(refusals::proofs::Chains::stops, refusals::proofs::Chains::goes_on), unfolding(crate::specs::Pieces::checkpoint_refusal, model::specs::Answers::record_refusal))]
fn check_checkpoint(sheet: &[u32], c: Checkpoint) -> Result<(), Refusal>
    ensures { checked result ≡ checkpoint_refusal sheet.now c }
{
    refuse_if(logs::record_is_wrong(sheet, c.bus), Refusal::Record)?;
    refuse_if(counts_are_wrong(c.waiting, c.releases), Refusal::Record)?;
    check_waiting(sheet, &c.streams, layout::wide(c.waiting))
}

// The refusals of a piece, with a buffer of so many words: 1 to 5, 16, 9, 10, 12, 6.
#[tactic(auto, using(refusals::proofs::Chains::stops, refusals::proofs::Chains::goes_on), unfolding(crate::specs::Pieces::resume_refusal, crate::specs::Pieces::piece_horizon_refusal, crate::specs::Pieces::places_refusal))]
pub fn check_resume(
    sheet: &[u32],
    c: Checkpoint,
    piece: &[u32],
    horizon: u32,
    room: usize,
) -> Result<(), Refusal>
    ensures { checked result ≡ resume_refusal sheet.now c piece.now horizon room }
{
    sheet::check_sheet(sheet)?;
    check_checkpoint(sheet, c)?;
    logs::check_piece(sheet, piece, c.releases, c.horizon, horizon)?;
    check_space(
        c.horizon,
        horizon,
        layout::wide(c.waiting),
        piece.len() / 2,
        room,
    )
}
