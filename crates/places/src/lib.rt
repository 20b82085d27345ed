// The waiting places of a replay by pieces, as tables of words: their checks, the log that they make, and the release numbers after them.
#![tactic(auto)]

ghost use Rattle.std.specs.Prelude.{◌≡◌, ◌||◌, suc, ◌+◌, ◌*◌, ◌≤◌, [], ◌∷◌, ◌++◌, ltb, length, drop};
ghost use Rattle.theory.specs.Listing.{values_from, joined_from, replaced_at};
ghost use Rattle.model.specs.Limits.{release_words, max_releases, max_time, max_waiting};
ghost use Rattle.model.specs.Refusal.{refuse, refuse_if, ◌or_else◌, first_of, outside};
ghost use Rattle.model.specs.Sheet.{word};
ghost use Rattle.model.specs.Answers.{waiting_refusal, room_refusal};
ghost use Rattle.refusals.specs.Numbers.{checked};

use refusals::{Refusal, refuse_if};

// A running stream number that is not on a sheet with so many streams.
#[tactic(auto, using(std::proofs::lemmas::Bool::Decides::nat_tests), unfolding(model::specs::Refusal::outside))]
fn stream_is_unknown(stream: u32, total: usize) -> bool
    ensures { result ≡ outside 1 total stream }
{
    let number = layout::wide(stream);
    number < 1 || total < number
}

// Refusal 16 of the first waiting message whose stream is not on the sheet.
#[tactic(auto, using(model::proofs::Sheet::Refusals::rest_start, model::proofs::Sheet::Refusals::rest_end))]
pub fn check_waiting(sheet: &[u32], streams: &[u32], waiting: usize) -> Result<(), Refusal>
    requires { waiting ≤ length streams.now }
    ensures { checked result ≡ first_of (waiting_refusal sheet.now streams.now) 1 waiting }
{
    let total = layout::streams_up_to(sheet, layout::word_at(sheet, 0));
    for i in 0..waiting {
        refuse_if(stream_is_unknown(streams[i], total), Refusal::Record)?;
    }
    Ok(())
}

// More waiting messages, or more releases so far, than there can be.
pub fn counts_are_wrong(waiting: u32, releases: u32) -> bool
    ensures { result ≡ (ltb 256 waiting || ltb 4096 releases) }
{
    256 < waiting || 4096 < releases
}

// A horizon that has fallen or is too large.
fn horizon_is_wrong(old: u32, new: u32) -> bool
    ensures { result ≡ (ltb new old || ltb max_time new) }
{
    new < old || 1000000000 < new
}

// Refusals 10, 12 and 6: the horizon, the waiting places, and a buffer of so many words, with so many messages waiting and so many releases.
#[tactic(auto, using(refusals::proofs::Chains::stops, refusals::proofs::Chains::goes_on), unfolding(model::specs::Answers::room_refusal))]
pub fn check_space(
    old: u32,
    new: u32,
    waiting: usize,
    count: usize,
    room: usize,
) -> Result<(), Refusal>
    requires { (waiting ≤ max_waiting) × (count ≤ max_releases) }
    ensures { checked result ≡ (refuse_if (ltb new old || ltb max_time new) (refuse 10 0 0) or_else refuse_if (ltb max_waiting (waiting + count)) (refuse 12 0 0) or_else room_refusal (release_words * (waiting + count)) room) }
{
    refuse_if(horizon_is_wrong(old, new), Refusal::Horizon)?;
    refuse_if(256 < waiting + count, Refusal::Places)?;
    refuse_if(room < 2 * (waiting + count), Refusal::Room)
}

// Writes the ticks and streams of the first `count` waiting messages as a log.
#[tactic(auto, using(crate::proofs::Writing::pairs_next), unfolding(theory::specs::Listing::joined_from))]
pub fn put_waiting(ticks: &[u32], streams: &[u32], count: usize, log: &mut [u32])
    requires { (count ≤ length ticks.now) × (count ≤ length streams.now) × (release_words * count ≤ length log.old) }
    ensures { log.new ≡ joined_from (λ i. word ticks.now i ∷ word streams.now i ∷ []) 0 count ++ drop (release_words * count) log.old }
{
    for i in 0..count {
        log[2 * i] = ticks[i];
        log[2 * i + 1] = streams[i];
    }
}

// Writes so many release numbers after one, from a place on.
#[tactic(auto, using(crate::proofs::Writing::numbers_next), unfolding(theory::specs::Listing::values_from))]
pub fn put_numbers(before: u32, at: usize, count: usize, numbers: &mut [u32])
    requires { (before + count ≤ max_releases) × (at + count ≤ length numbers.old) }
    ensures { numbers.new ≡ replaced_at numbers.old at (values_from suc before count) }
{
    let mut number = before;
    for place in &mut numbers[at..at + count] {
        number += 1;
        *place = number;
    }
}
