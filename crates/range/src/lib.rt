// The range tests of a sheet's numbers, for its reader and its writer, and a refusal told as three numbers. None asks anything of its caller.
#![tactic(auto)]

ghost use Rattle.std.specs.Prelude.{◌≡◌};
ghost use Rattle.model.specs.Refusal.{refuse, refuse_if, outside};
ghost use Rattle.model.specs.Sheet.{ticks_outside, counts_outside, times_outside};

use model::Answer;

// A number out of range.
#[tactic(auto, using(std::proofs::lemmas::Bool::Decides::nat_tests), unfolding(model::specs::Refusal::outside))]
pub fn is_outside(least: u32, most: u32, x: u32) -> bool
    ensures { result ≡ outside least most x }
{
    x < least || most < x
}

// The ticks of a message or of a protocol slot out of range.
#[tactic(auto, using(std::proofs::lemmas::Bool::Decides::nat_tests), unfolding(model::specs::Sheet::ticks_outside, model::specs::Refusal::outside))]
pub fn ticks_outside(message: u32, slot: u32) -> bool
    ensures { result ≡ ticks_outside message slot }
{
    is_outside(1, 10000, message) || is_outside(1, 10000, slot)
}

// A node's number of streams or its budget out of range.
#[tactic(auto, using(std::proofs::lemmas::Bool::Decides::nat_tests), unfolding(model::specs::Sheet::counts_outside, model::specs::Refusal::outside))]
pub fn counts_outside(count: u32, budget: u32) -> bool
    ensures { result ≡ counts_outside count budget }
{
    16 < count || is_outside(1, 16, budget)
}

// A stream's period, its deadline or its jitter out of range.
#[tactic(auto, using(std::proofs::lemmas::Bool::Decides::nat_tests), unfolding(model::specs::Sheet::times_outside, model::specs::Refusal::outside))]
pub fn times_outside(period: u32, deadline: u32, jitter: u32) -> bool
    ensures { result ≡ times_outside period deadline jitter }
{
    is_outside(1, 1000000000, period) || is_outside(1, period, deadline) || period <= jitter
}

// The refusal where the test holds, and no reason to refuse otherwise. It takes any three numbers, also such as no reason of `refusals` has.
#[tactic(auto, unfolding(model::specs::Refusal::refuse_if))]
pub fn refuse_if(test: bool, number: u32, second: u32, third: u32) -> Answer
    ensures { result ≡ refuse_if test (refuse number second third) }
{
    if test {
        Answer {
            number,
            second,
            third,
        }
    } else {
        Answer {
            number: 0,
            second: 0,
            third: 0,
        }
    }
}
