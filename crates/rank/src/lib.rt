// Priority, "rank": who of a node's streams is ranked above whom. The analysis and the queue of a turn both ask here.
#![tactic(auto)]

ghost use Rattle.std.specs.Prelude.{◌≡◌};
ghost use Rattle.model.specs.Analysis.{outranks};

use model::Stream;

// True where x is ranked above y.
#[tactic(auto, using(std::proofs::lemmas::Bool::Decides::nat_tests), unfolding(model::specs::Analysis::outranks))]
pub fn is_above(x: Stream, y: Stream) -> bool
    ensures { result ≡ outranks x y }
{
    (x.deadline, x.period, x.number) < (y.deadline, y.period, y.number)
}
