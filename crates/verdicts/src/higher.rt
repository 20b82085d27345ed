// Who is ranked above a stream.
ghost use Rattle.std.specs.Prelude.{◌≡◌, ◌≤◌, length, take};
ghost use Rattle.model.specs.Limits.{max_streams};
ghost use Rattle.model.specs.Sheet.{nodes, Valid};
ghost use Rattle.verdicts.specs.Periods.{higher_periods, higher_jitters};
ghost use Rattle.verdicts.specs.Body.{Body};

use bodies::{place_in_body, stream_there};
use layout::{place_of, stream_count};
use model::Stream;
use rank::is_above;

// The least periods and the jitters of node k's streams ranked above stream x in the buffers' first words, and how many they are. The
// node's body stands at `body` with `count` streams. The words of each stream are stored, and the next take their place unless it
// is one above, so that no jump depends on the rank.
fn collect_above(
    sheet: &[u32],
    k: u32,
    x: Stream,
    body: u32,
    count: u32,
    periods: &mut [u32],
    jitters: &mut [u32],
) -> usize
    requires { Body sheet.now k body count × (length periods.old ≡ max_streams) × (length jitters.old ≡ max_streams) }
    ensures count { result ≤ max_streams }
    ensures periods { take result periods.new ≡ higher_periods sheet.now k x }
    ensures jitters { take result jitters.new ≡ higher_jitters sheet.now k x }
{
    let mut n: usize = 0;
    for i in 0..count {
        let j = i + 1;
        let y = stream_there(sheet, place_in_body(body, j), j);
        periods[n] = y.period;
        jitters[n] = y.jitter;
        if is_above(y, x) {
            n += 1;
        }
    }
    n
}

// The same, with what it takes read from the sheet.
pub fn higher_streams(
    sheet: &[u32],
    k: u32,
    x: Stream,
    periods: &mut [u32],
    jitters: &mut [u32],
) -> usize
    requires { Valid sheet.now × (1 ≤ k) × (k ≤ nodes sheet.now) × (length periods.old ≡ max_streams) × (length jitters.old ≡ max_streams) }
    ensures count { result ≤ max_streams }
    ensures periods { take result periods.new ≡ higher_periods sheet.now k x }
    ensures jitters { take result jitters.new ≡ higher_jitters sheet.now k x }
{
    let body = place_of(sheet, k);
    let count = stream_count(sheet, k);
    collect_above(sheet, k, x, body, count, periods, jitters)
}
