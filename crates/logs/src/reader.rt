// The log reader: refusal 9 with its place, for any words. A log is one piece, from tick 0 on and with no end.
ghost use Rattle.std.specs.Prelude.{◌≡◌, ◌||◌, ◌+◌, ◌<◌, ◌≤◌, ltb};
ghost use Rattle.model.specs.Limits.{max_time, max_releases};
ghost use Rattle.model.specs.Refusal.{outside, first_of};
ghost use Rattle.model.specs.Sheet.{total_streams};
ghost use Rattle.model.specs.Protocol.{releases, release_tick, release_stream};
ghost use Rattle.model.specs.Answers.{tick_before, piece_release_wrong, piece_release_refusal, log_refusal, piece_refusal};
ghost use Rattle.refusals.specs.Numbers.{checked};

use refusals::{Refusal, refuse_if};

// A tick too large, a falling tick or a stream unknown in release i, counted from 0, where `before` is the tick before it.
#[tactic(auto, using(std::proofs::lemmas::Bool::Decides::nat_tests), unfolding(model::specs::Refusal::outside))]
fn release_is_wrong(log: &[u32], i: usize, before: u32, streams: usize) -> bool
    requires { i < releases log.now }
    ensures { result ≡ (ltb max_time (release_tick log.now i) || ltb (release_tick log.now i) before || outside 1 streams (release_stream log.now i)) }
{
    let tick = log[2 * i];
    let stream = layout::wide(log[2 * i + 1]);
    1000000000 < tick || tick < before || stream < 1 || streams < stream
}

// The same, or a tick outside a piece that goes from a tick to before another, in the release after i others.
#[tactic(auto, using(std::proofs::lemmas::Bool::Decides::nat_tests))]
fn piece_release_is_wrong(
    sheet: &[u32],
    log: &[u32],
    i: usize,
    before: u32,
    streams: usize,
    old: u32,
    new: u32,
) -> bool
    requires { (i < releases log.now) × (before ≡ tick_before log.now (i + 1)) × (streams ≡ total_streams sheet.now) }
    ensures { result ≡ piece_release_wrong sheet.now old new log.now (i + 1) }
{
    let tick = log[2 * i];
    release_is_wrong(log, i, before, streams) || tick < old || new <= tick
}

// Refusal 9 of the release after i others.
#[tactic(auto, unfolding(model::specs::Answers::piece_release_refusal))]
fn check_release(
    sheet: &[u32],
    log: &[u32],
    i: usize,
    before: u32,
    streams: usize,
    old: u32,
    new: u32,
) -> Result<(), Refusal>
    requires i_bound { (i < releases log.now) × (releases log.now ≤ max_releases) }
    requires before_value { (before ≡ tick_before log.now (i + 1)) × (streams ≡ total_streams sheet.now) }
    ensures { checked result ≡ piece_release_refusal sheet.now old new log.now (i + 1) }
{
    let wrong = piece_release_is_wrong(sheet, log, i, before, streams, old, new);
    let number = (i + 1) as u32;
    refuse_if(wrong, Refusal::Release { number })
}

// Refusal 9 of the first release that has a fault.
#[tactic(auto, using(refusals::proofs::Chains::rest_stops, model::proofs::Sheet::Refusals::rest_end))]
fn check_releases(sheet: &[u32], log: &[u32], old: u32, new: u32) -> Result<(), Refusal>
    requires { releases log.now ≤ max_releases }
    ensures { checked result ≡ first_of (piece_release_refusal sheet.now old new log.now) 1 (releases log.now) }
{
    let streams = layout::streams_up_to(sheet, layout::word_at(sheet, 0));
    let mut before: u32 = 0;
    for i in 0..log.len() / 2 {
        check_release(sheet, log, i, before, streams, old, new)?;
        before = log[2 * i];
    }
    Ok(())
}

// Refusal 9 of a piece with ticks from `old` to before `new`, after so many releases in other pieces.
#[tactic(auto, using(refusals::proofs::Chains::stops, refusals::proofs::Chains::goes_on), unfolding(model::specs::Answers::piece_refusal))]
pub fn check_piece(
    sheet: &[u32],
    piece: &[u32],
    earlier: u32,
    old: u32,
    new: u32,
) -> Result<(), Refusal>
    ensures { checked result ≡ piece_refusal sheet.now earlier old new piece.now }
{
    refuse_if(piece.len() % 2 != 0, Refusal::Log)?;
    refuse_if(4096 < layout::wide(earlier) + piece.len() / 2, Refusal::Log)?;
    check_releases(sheet, piece, old, new)
}

// Refusal 9 of a log. No tick is at or after the largest word.
#[tactic(auto, using(model::proofs::Answers::OnePiece::one_piece))]
pub fn check_log(sheet: &[u32], log: &[u32]) -> Result<(), Refusal>
    ensures { checked result ≡ log_refusal sheet.now log.now }
{
    check_piece(sheet, log, 0, 0, 4294967295)
}
