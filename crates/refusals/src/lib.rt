// Why a request is refused. The checks answer `Result<(), Refusal>`, so that `?` keeps their order; the three numbers of a refusal, which C
// and the programs are given, are made of it at the very end.
#![tactic(auto)]

ghost use Rattle.std.specs.Prelude.{◌≡◌, ℕ, ◌≤◌, MatchResult};
ghost use Rattle.model.specs.declared.Answer.{Answer};
ghost use Rattle.model.specs.Refusal.{refuse_if, first_of};
ghost use Rattle.refusals.specs.Numbers.{numbers, checked, AnswersAs};

use model::Answer;

// The reasons, with the places that they name; the comment of each has its number.
#[derive(Clone, Copy, Debug, PartialEq, Eq)]
pub enum Refusal {
    // 1: the sheet is too short for a header.
    Header,
    // 2: the number of nodes is out of range.
    Nodes,
    // 3: the ticks of a message or of a protocol slot are out of range.
    Ticks,
    // 4 with no place: what is lent is not as long as the contents say.
    Length,
    // 4: the row of a node is wrong.
    Row { node: u32 },
    // 5: the period, the deadline or the jitter of a stream is out of range.
    Times { node: u32, stream: u32 },
    // 6: the lent room is too short.
    Room,
    // 7: a stream is late.
    Late { node: u32, stream: u32 },
    // 8: there is no such stream.
    Unknown { node: u32, stream: u32 },
    // 9 with no place: a log of odd length, or with too many releases.
    Log,
    // 9: a release of the log is wrong; they are counted from 1.
    Release { number: u32 },
    // 10: the horizon is too large, or has fallen.
    Horizon,
    // 11: a node with a late stream has the largest budget already.
    Stuck { node: u32 },
    // 12: more messages would wait than there are places.
    Places,
    // 13: the stream is one of another node than our own.
    Foreign { node: u32, stream: u32 },
    // 16: the record is none that a replay hands out.
    Record,
}

// A refusal of a request whose record goes in by value: why, and the record, which is handed back.
#[derive(Clone, Copy)]
pub struct Refused<R> {
    pub refusal: Refusal,
    pub kept: R,
}

// An answer of three numbers, for a refusal.
impl From<Refusal> for Answer {
    ghost from_gives = { λ refusal answer. answer ≡ numbers refusal };

    fn from(refusal: Refusal) -> Answer {
        let (number, second, third) = match refusal {
            Refusal::Header => (1, 0, 0),
            Refusal::Nodes => (2, 0, 0),
            Refusal::Ticks => (3, 0, 0),
            Refusal::Length => (4, 0, 0),
            Refusal::Row { node } => (4, node, 0),
            Refusal::Times { node, stream } => (5, node, stream),
            Refusal::Room => (6, 0, 0),
            Refusal::Late { node, stream } => (7, node, stream),
            Refusal::Unknown { node, stream } => (8, node, stream),
            Refusal::Log => (9, 0, 0),
            Refusal::Release { number } => (9, 0, number),
            Refusal::Horizon => (10, 0, 0),
            Refusal::Stuck { node } => (11, node, 0),
            Refusal::Places => (12, 0, 0),
            Refusal::Foreign { node, stream } => (13, node, stream),
            Refusal::Record => (16, 0, 0),
        };
        Answer {
            number,
            second,
            third,
        }
    }
}

// The refusal where the test holds, and no reason to refuse otherwise.
#[tactic(auto, unfolding(model::specs::Refusal::refuse_if))]
pub fn refuse_if(test: bool, refusal: Refusal) -> Result<(), Refusal>
    ensures { checked result ≡ refuse_if test (numbers refusal) }
{
    if test { Err(refusal) } else { Ok(()) }
}

// The first refusal among the checks of 1, 2, .., count. Whatever each check answers in numbers, this answers as their row does.
pub fn first_refusal<F: Fn(u32) -> Result<(), Refusal>>(count: u32, check: F) -> Result<(), Refusal>
    requires { (k : ℕ) → 1 ≤ k → k ≤ count → F.pre check k }
    ensures { (f : ℕ → Answer) → AnswersAs (F.post check) f count → checked result ≡ first_of f 1 count }
{
    for i in 0..count {
        check(i + 1)?;
    }
    Ok(())
}

// The three numbers of an outcome, as C and the programs are given them: those of what was done, or those of the refusal.
pub fn answer_of<T: Into<Answer>>(outcome: Result<T, Refusal>) -> Answer
    ensures { MatchResult outcome (λ done. T.converts done result) (λ refusal. result ≡ numbers refusal) }
{
    match outcome {
        Ok(done) => done.into(),
        Err(refusal) => refusal.into(),
    }
}

// The same of a check, whose success has no numbers.
pub fn answer_of_check(outcome: Result<(), Refusal>) -> Answer
    ensures { result ≡ checked outcome }
{
    match outcome {
        Ok(()) => Answer {
            number: 0,
            second: 0,
            third: 0,
        },
        Err(refusal) => refusal.into(),
    }
}
