// The listed waits of all streams of a sheet, as numbers that every wait can be compared with.
#![tactic(auto)]

ghost use Rattle.std.specs.Prelude.{◌≡◌, ◌++◌, ◌+◌, ◌-◌, ◌*◌, ◌≤◌, length, drop};
ghost use Rattle.theory.specs.Listing.{values_from};
ghost use Rattle.model.specs.Sheet.{nodes, cycle as full_cycle, stream_count, total_streams, in_sheet_order, Valid};
ghost use Rattle.model.specs.Limits.{max_streams, max_time};
ghost use Rattle.model.specs.Analysis.{stream_of, most_releases, verdict, timing_of, verdict_of};
ghost use Rattle.interference.specs.Periods.{interference_by};
ghost use Rattle.interference.specs.InRange.{max_cycle, HigherRanges, Ranges, StreamRanges};
ghost use Rattle.verdicts.specs.Body.{Body};
ghost use Rattle.limits.specs.Limits.{limit_word, LimitsOf};
ghost use Rattle.ranking.specs.Ranking.{rank_order, ranked_periods, ranked_jitters};

use layout::{row_of, stream_count, wide, word_at};
use model::{Timing, Verdict};
use ranking::{rank_streams, stream_numbered, times_of};
use verdicts::timing_with;
use wait::near::{verdict_near, with_one_more};

// The number that stands for a verdict.
fn limit_of(verdict: Verdict) -> u32
    ensures { result ≡ limit_word verdict }
{
    match verdict {
        Verdict::Late => u32::MAX,
        Verdict::Listed { wait, cycles: _ } => wait,
    }
}

// Interference of streams in one full cycle and in two.
#[derive(Clone, Copy)]
struct Sums {
    one: u64,
    two: u64,
}

// The same with one stream more.
fn with_stream(sums: Sums, period: u32, jitter: u32, cycle: u32) -> Sums
    requires { (1 ≤ period) × (jitter ≤ max_time) × (1 ≤ cycle) × (cycle ≤ max_cycle) × (sums.one ≤ max_streams * (2 * max_time + 1)) × (sums.two ≤ max_streams * (2 * max_time + 1)) }
    ensures sums { (result.one ≡ sums.one + most_releases period jitter (cycle - 1)) × (result.two ≡ sums.two + most_releases period jitter (2 * cycle - 1)) }
    ensures few { (result.one ≤ sums.one + (2 * max_time + 1)) × (result.two ≤ sums.two + (2 * max_time + 1)) }
{
    Sums {
        one: with_one_more(sums.one, period, jitter, cycle - 1),
        two: with_one_more(sums.two, period, jitter, 2 * cycle - 1),
    }
}

// The limit of stream j of node k, by those ranked above it: their least periods and jitters, and their interference.
fn limit_above(
    sheet: &[u32],
    k: u32,
    body: u32,
    count: u32,
    j: u32,
    periods: &[u32],
    jitters: &[u32],
    sums: Sums,
    timing: Timing,
) -> u32
    requires body { Body sheet.now k body count × (1 ≤ j) × (j ≤ count) × StreamRanges (stream_of sheet.now k j) }
    requires higher_ranges { HigherRanges periods.now jitters.now × Ranges timing × (sums.one ≡ interference_by periods.now jitters.now (timing.cycle - 1)) × (sums.two ≡ interference_by periods.now jitters.now (2 * timing.cycle - 1)) }
    ensures { result ≡ limit_word (verdict (interference_by periods.now jitters.now) timing (stream_of sheet.now k j)) }
{
    let stream = stream_numbered(sheet, k, body, count, j);
    limit_of(verdict_near(periods, jitters, sums.one, sums.two, timing, stream))
}

// The limits of node k's streams, each at its own place in the first words of a table, by a pass over the streams in rank order: those that
// are passed are those ranked above.
fn list_ranked(
    sheet: &[u32],
    k: u32,
    body: u32,
    count: u32,
    timing: Timing,
    order: &[u32],
    periods: &[u32],
    jitters: &[u32],
    limits: &mut [u32],
)
    requires valid { Valid sheet.now × (1 ≤ k) × (k ≤ nodes sheet.now) × Body sheet.now k body count × (timing ≡ timing_of sheet.now k) × (count ≤ length limits.old) }
    requires order_value { (order.now ≡ rank_order sheet.now k) × (periods.now ≡ ranked_periods sheet.now k) × (jitters.now ≡ ranked_jitters sheet.now k) }
    ensures { limits.new ≡ values_from (λ j. limit_word (verdict_of sheet.now k j)) 1 (stream_count sheet.now k) ++ drop (stream_count sheet.now k) limits.old }
{
    let mut sums = Sums { one: 0, two: 0 };
    for (i, &j) in order.iter().enumerate() {
        let limit = limit_above(
            sheet,
            k,
            body,
            count,
            j,
            &periods[..i],
            &jitters[..i],
            sums,
            timing,
        );
        limits[wide(j) - 1] = limit;
        sums = with_stream(sums, periods[i], jitters[i], timing.cycle);
    }
}

// The limits of node k's streams in the first words of a table.
fn list_node(sheet: &[u32], k: u32, cycle: u32, limits: &mut [u32])
    requires { Valid sheet.now × (1 ≤ k) × (k ≤ nodes sheet.now) × (cycle ≡ full_cycle sheet.now) × (stream_count sheet.now k ≤ length limits.old) }
    ensures { limits.new ≡ values_from (λ j. limit_word (verdict_of sheet.now k j)) 1 (stream_count sheet.now k) ++ drop (stream_count sheet.now k) limits.old }
{
    let row = row_of(sheet, k);
    let timing = timing_with(sheet, cycle, row.budget);
    let n = wide(row.streams);
    let mut order = [0u32; 16];
    rank_streams(sheet, k, row.place, row.streams, &mut order);
    let mut periods = [0u32; 16];
    let mut jitters = [0u32; 16];
    times_of(
        sheet,
        k,
        row.place,
        row.streams,
        &order[..n],
        &mut periods,
        &mut jitters,
    );
    list_ranked(
        sheet,
        k,
        row.place,
        row.streams,
        timing,
        &order[..n],
        &periods[..n],
        &jitters[..n],
        limits,
    );
}

// The limits of all streams in the first words of a table.
fn list_nodes(sheet: &[u32], n: u32, cycle: u32, limits: &mut [u32])
    requires { Valid sheet.now × (n ≡ nodes sheet.now) × (cycle ≡ full_cycle sheet.now) × (total_streams sheet.now ≤ length limits.old) }
    ensures { limits.new ≡ in_sheet_order sheet.now (λ k j. limit_word (verdict_of sheet.now k j)) ++ drop (total_streams sheet.now) limits.old }
{
    let mut at: usize = 0;
    for k in 1..=n {
        list_node(sheet, k, cycle, &mut limits[at..]);
        at += wide(stream_count(sheet, k));
    }
}

// The limits of a sheet's streams in the front of a table.
pub fn put_limits(sheet: &[u32], limits: &mut [u32])
    requires { Valid sheet.now × (total_streams sheet.now ≤ length limits.old) }
    ensures { LimitsOf sheet.now limits.new }
{
    let cycle = verdicts::cycle_of(sheet);
    list_nodes(sheet, word_at(sheet, 0), cycle, limits);
}
