// The analysis: the listed wait of one stream, and the admission of a whole sheet.
#![tactic(auto)]

ghost use Rattle.std.specs.Prelude.{◌≡◌, ◌≤◌, length};
ghost use Rattle.model.specs.Sheet.{total_streams, OnSheet, Valid};
ghost use Rattle.model.specs.Answers.{verdict_answer, one_stream_answer, admit_answer, admit_buffer};
ghost use Rattle.model.specs.Demand.{Judged, AllJudged};
ghost use Rattle.refusals.specs.Numbers.{answered};
ghost use Rattle.analysis.specs.Numbers.{listed_numbers, admitted_numbers};

use asked::check_asked;
use judge::judge_sheet;
use layout::{streams_up_to, word_at};
use model::{Answer, Verdict};
use refusals::{Refusal, refuse_if};
use sheet::check_sheet;
use verdicts::{cycle_of, verdict_on};

mod judge; // judge.rt: the verdicts on all streams

// The longest wait of a stream, and J, the number of full cycles at which it was found.
#[derive(Clone, Copy, Debug, PartialEq, Eq)]
pub struct ListedWait {
    pub wait: u32,
    pub cycles: u32,
}

impl From<ListedWait> for Answer {
    ghost from_gives = { λ found answer. answer ≡ listed_numbers found };

    fn from(found: ListedWait) -> Answer {
        Answer {
            number: 0,
            second: found.wait,
            third: found.cycles,
        }
    }
}

// An admitted sheet: its number of streams, and C, its full cycle.
#[derive(Clone, Copy, Debug, PartialEq, Eq)]
pub struct Admitted {
    pub streams: u32,
    pub cycle: u32,
}

impl From<Admitted> for Answer {
    ghost from_gives = { λ done answer. answer ≡ admitted_numbers done };

    fn from(done: Admitted) -> Answer {
        Answer {
            number: 0,
            second: done.streams,
            third: done.cycle,
        }
    }
}

// The wait that a verdict on stream j of node k lists, or refusal 7.
#[tactic(auto, unfolding(model::specs::Answers::verdict_answer))]
fn wait_of(k: u32, j: u32, verdict: Verdict) -> Result<ListedWait, Refusal>
    ensures { answered listed_numbers result ≡ verdict_answer k j verdict }
{
    match verdict {
        Verdict::Late => Err(Refusal::Late { node: k, stream: j }),
        Verdict::Listed { wait, cycles } => Ok(ListedWait { wait, cycles }),
    }
}

// "One stream": its listed wait and J. Refusals 1 to 5, 8, 7. For a stream of a valid sheet, demand 2 holds of what it answers.
pub fn one_stream(sheet: &[u32], node: u32, stream: u32) -> Result<ListedWait, Refusal>
    ensures answer { answered listed_numbers result ≡ one_stream_answer sheet.now node stream }
    ensures demand { Valid sheet.now → OnSheet sheet.now node stream → Judged sheet.now node stream (answered listed_numbers result) }
{
    check_asked(sheet, node, stream)?;
    let verdict = verdict_on(sheet, node, stream, cycle_of(sheet));
    wait_of(node, stream, verdict)
}

// "Admit": number of streams and C; the listed waits in the room's first words. Refusals 1 to 5, 6, 7. For a valid sheet, with room
// enough, demand 2 holds of what it answers and writes.
pub fn admit(sheet: &[u32], room: &mut [u32]) -> Result<Admitted, Refusal>
    ensures answer { answered admitted_numbers result ≡ admit_answer sheet.now (length room.old) }
    ensures buffer { room.new ≡ admit_buffer sheet.now room.old }
    ensures demand { Valid sheet.now → total_streams sheet.now ≤ length room.old → AllJudged sheet.now (answered admitted_numbers result) room.new }
{
    check_sheet(sheet)?;
    let total = streams_up_to(sheet, word_at(sheet, 0));
    refuse_if(room.len() < total, Refusal::Room)?;
    judge_sheet(sheet, total, room)
}
