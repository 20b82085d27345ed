// The parts of a sheet in the buffer: contents rows and bodies, each from its place on.
#![tactic(auto)]

ghost use Rattle.std.specs.Prelude.{◌≡◌, ◌++◌, ◌+◌, ◌*◌, ◌≤◌, ◌<◌, ◌^◌, length, drop};
ghost use Rattle.theory.specs.Listing.{joined_from, replaced_at};
ghost use Rattle.model.specs.Limits.{header_words, stream_words, max_nodes, max_streams};
ghost use Rattle.model.specs.Sheet.{first_body_at, body_at};
ghost use Rattle.tables.specs.Tables.{node_entry, sum_of, counts_before};
ghost use Rattle.tables.specs.Writing.{row_of, body_of};

use entries::node_entry;
use layout::{wide, word_at};
use tables::Tables;

// The contents rows of all nodes, after the header.
#[tactic(auto, using(crate::proofs::Counting::counts_room, theory::proofs::Sums::sum_to_none), unfolding(theory::specs::Listing::joined_from))]
pub fn write_rows(tables: &Tables<'_>, room: &mut [u32])
    requires { (length tables.now.counts.now ≤ max_nodes) × (sum_of tables.now.counts.now ≤ max_nodes * max_streams) × (first_body_at (length tables.now.counts.now) ≤ length room.old) }
    ensures { room.new ≡ replaced_at room.old header_words (joined_from (row_of tables.now.counts.now tables.now.budgets.now) 1 (length tables.now.counts.now)) }
{
    let n = tables.counts.len() as u32;
    let mut place = layout::first_body_at(n);
    for k in 1..=n {
        let at = layout::row_at(k);
        let count = node_entry(tables.counts, k);
        let budget = node_entry(tables.budgets, k);
        fill::put_row(place as u32, count, budget, &mut room[at..]);
        place += layout::body_words(count);
    }
}

// One body, in the part of the buffer that is lent from its place on: the words of `count` streams, which `before` others come before.
#[tactic(auto, unfolding(theory::specs::Listing::joined_from))]
fn write_body(tables: &Tables<'_>, before: usize, count: u32, body: &mut [u32])
    requires { (before + count < 2 ^ 64) × (stream_words * count ≤ length body.old) }
    ensures { body.new ≡ body_of tables.now.periods.now tables.now.deadlines.now tables.now.jitters.now before count ++ drop (stream_words * count) body.old }
{
    for i in 0..count {
        let from = before + wide(i);
        let at = layout::body_words(i);
        fill::put_stream(
            word_at(tables.periods, from),
            word_at(tables.deadlines, from),
            word_at(tables.jitters, from),
            &mut body[at..],
        );
    }
}

// The bodies of all nodes, each written from its place on.
#[tactic(auto, using(crate::proofs::Counting::counts_room))]
pub fn write_bodies(tables: &Tables<'_>, room: &mut [u32])
    requires { (length tables.now.counts.now ≤ max_nodes) × (sum_of tables.now.counts.now ≤ max_nodes * max_streams) × (body_at (length tables.now.counts.now) (sum_of tables.now.counts.now) ≤ length room.old) }
    ensures { room.new ≡ replaced_at room.old (first_body_at (length tables.now.counts.now)) (joined_from (λ k. body_of tables.now.periods.now tables.now.deadlines.now tables.now.jitters.now (counts_before tables.now.counts.now k) (node_entry tables.now.counts.now k)) 1 (length tables.now.counts.now)) }
{
    let n = tables.counts.len() as u32;
    let mut before: usize = 0;
    let mut at = layout::first_body_at(n);
    for k in 1..=n {
        let count = node_entry(tables.counts, k);
        write_body(tables, before, count, &mut room[at..]);
        before += wide(count);
        at += layout::body_words(count);
    }
}
