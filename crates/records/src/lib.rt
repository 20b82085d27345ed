// A lent list of stream records, and what a message that begins changes in it.
#![tactic(auto)]

ghost use Rattle.std.specs.Prelude.{◌≡◌, ◌++◌, ◌+◌, ◌*◌, ◌≤◌, ◌<◌, length, take, drop, replicate};
ghost use Rattle.model.specs.Limits.{max_time, max_budget, max_releases, max_slot_ticks};
ghost use Rattle.model.specs.Sheet.{word};
ghost use Rattle.model.specs.Protocol.{releases, release_tick, release_stream};
ghost use Rattle.model.specs.Records.{none_yet, record_at};
ghost use Rattle.records.specs.Noting.{noted_with, noted_in, note_as, noted_from, CountsUpTo, CanBeNoted};

use model::StreamRecord;

// What is noted of a message that begins: the place of its stream's record, its wait, and the limit above which the wait is counted.
#[derive(Clone, Copy)]
pub struct Note {
    pub at: usize,
    pub wait: u32,
    pub limit: u32,
}

// A record once one message more has begun, after a wait.
fn noted(old: StreamRecord, wait: u32, limit: u32) -> StreamRecord
    requires { CountsUpTo (max_releases + max_budget) old }
    ensures { result ≡ noted_with limit wait old }
{
    let mut over = old.over;
    if limit < wait {
        over += 1;
    }
    StreamRecord {
        begun: old.begun + 1,
        longest: old.longest.max(wait),
        over,
    }
}

// Notes a message that begins in the record of its stream; all other records stay.
pub fn note_begin(records: &mut [StreamRecord], begun: Note)
    requires { (begun.at < length records.old) × CountsUpTo (max_releases + max_budget) (record_at records.old begun.at) }
    ensures { records.new ≡ noted_in records.old begun }
{
    let at = begun.at;
    let old = records[at];
    let new = noted(old, begun.wait, begun.limit);
    records[at] = new;
}

// What is noted of the message at place j, of those that begin one after the other from a tick on.
fn note_of(log: &[u32], limits: &[u32], places: &[usize], message: u32, tick: u32, j: usize) -> Note
    requires j_lt_max_budget { (j < max_budget) × (j < length places.now) × (message ≤ max_slot_ticks) × (tick ≤ max_time) }
    requires j_bound { (word places.now j < releases log.now) × (release_tick log.now (word places.now j) ≤ tick) × (1 ≤ release_stream log.now (word places.now j)) × (release_stream log.now (word places.now j) ≤ length limits.now) }
    ensures { result ≡ note_as log.now limits.now (tick + j * message) (word places.now j) }
{
    let release = places[j];
    let at = layout::wide(log[2 * release + 1]) - 1;
    let begin = tick + (j as u32) * message;
    Note {
        at,
        wait: begin - log[2 * release],
        limit: limits[at],
    }
}

// Notes the messages at the first `count` places, which begin one after the other, the first of them at a tick.
pub fn note_messages(
    log: &[u32],
    limits: &[u32],
    places: &[usize],
    count: usize,
    message: u32,
    tick: u32,
    records: &mut [StreamRecord],
)
    requires count_le_max_budget { (count ≤ max_budget) × (count ≤ length places.now) × (message ≤ max_slot_ticks) × (tick ≤ max_time) }
    requires can_be_noted { CanBeNoted log.now limits.now (take count places.now) tick max_releases records.old }
    ensures { records.new ≡ noted_from log.now limits.now message tick (take count places.now) records.old }
{
    for j in 0..count {
        let begun = note_of(log, limits, places, message, tick, j);
        note_begin(records, begun);
    }
}

// Makes the first `count` records those of streams of which nothing has begun; the records past them stay.
pub fn clear_records(records: &mut [StreamRecord], count: usize)
    requires { count ≤ length records.old }
    ensures { records.new ≡ replicate count none_yet ++ drop count records.old }
{
    records[..count].fill(StreamRecord {
        begun: 0,
        longest: 0,
        over: 0,
    });
}
