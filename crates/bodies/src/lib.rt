// The streams of a sheet: where one stands in its node's body, and its words, over any words; 0 past the end, as the definitions do. None but
// one, for a valid sheet, asks anything of its caller.
#![tactic(auto)]

ghost use Rattle.std.specs.Prelude.{◌≡◌, pred, ◌+◌, ◌*◌, ◌≤◌, ◌<◌, ◌^◌, length};
ghost use Rattle.model.specs.Limits.{stream_words};
ghost use Rattle.model.specs.Analysis.{stream_in, stream_of};

use layout::{place_of, wide, word_at};
use model::Stream;

// Where stream j stands in a body at `body`.
pub fn place_in_body(body: u32, j: u32) -> usize
    ensures { (result ≡ body + stream_words * pred j) × (result < 2 ^ 34) }
{
    wide(body) + 3 * wide(j.saturating_sub(1))
}

// The stream with number j whose words stand at a place, all three of them: nothing is tested.
pub fn stream_there(sheet: &[u32], at: usize, j: u32) -> Stream
    requires { at + stream_words ≤ length sheet.now }
    ensures { result ≡ stream_in sheet.now at j }
{
    Stream {
        number: j,
        period: sheet[at],
        deadline: sheet[at + 1],
        jitter: sheet[at + 2],
    }
}

// The same where they may not be there; 0 past the end.
pub fn stream_in(sheet: &[u32], at: usize, j: u32) -> Stream
    ensures { result ≡ stream_in sheet.now at j }
{
    let words = sheet.get(at..).unwrap_or(&[]);
    let (period, deadline, jitter) = match words {
        [period, deadline, jitter, ..] => (*period, *deadline, *jitter),
        _ => (word_at(words, 0), word_at(words, 1), 0),
    };
    Stream {
        number: j,
        period,
        deadline,
        jitter,
    }
}

// Stream j of node k.
pub fn stream_of(sheet: &[u32], k: u32, j: u32) -> Stream
    ensures { result ≡ stream_of sheet.now k j }
{
    stream_in(sheet, place_in_body(place_of(sheet, k), j), j)
}
