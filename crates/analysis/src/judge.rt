// The verdicts on all streams of a sheet, and their listed waits in a lent buffer.
ghost use Rattle.std.specs.Prelude.{◌≡◌, ◌≤◌, length, take, OnOk};
ghost use Rattle.model.specs.Refusal.{success, ◌or_else◌, first_of};
ghost use Rattle.model.specs.Sheet.{nodes, cycle as full_cycle, stream_count, total_streams, Valid};
ghost use Rattle.model.specs.Answers.{node_late_refusal, waits_from, listed_waits, buffer_after};
ghost use Rattle.refusals.specs.Numbers.{answered, checked};
ghost use Rattle.analysis.specs.Numbers.{admitted_numbers};

use crate::Admitted;
use layout::{stream_count, wide, word_at};
use model::Verdict;
use refusals::Refusal;
use verdicts::{cycle_of, verdict_on};

// Refusal 7 of node k's streams, and their listed waits in the first words of `waits` where none is late.
fn judge_node(sheet: &[u32], k: u32, cycle: u32, waits: &mut [u32]) -> Result<(), Refusal>
    requires { Valid sheet.now × (1 ≤ k) × (k ≤ nodes sheet.now) × (cycle ≡ full_cycle sheet.now) × (stream_count sheet.now k ≤ length waits.old) }
    ensures answer { checked result ≡ node_late_refusal sheet.now k }
    ensures buffer { OnOk result (take (stream_count sheet.now k) waits.new ≡ waits_from sheet.now k 1 (stream_count sheet.now k)) }
{
    let count = stream_count(sheet, k);
    for i in 0..count {
        match verdict_on(sheet, k, i + 1, cycle) {
            Verdict::Late => {
                return Err(Refusal::Late {
                    node: k,
                    stream: i + 1,
                });
            }
            Verdict::Listed { wait, cycles: _ } => {
                waits[wide(i)] = wait;
            }
        }
    }
    Ok(())
}

// Refusal 7 of all streams, and their listed waits in the first words of `waits` where none is late.
fn judge_nodes(sheet: &[u32], n: u32, cycle: u32, waits: &mut [u32]) -> Result<(), Refusal>
    requires { Valid sheet.now × (n ≡ nodes sheet.now) × (cycle ≡ full_cycle sheet.now) × (total_streams sheet.now ≤ length waits.old) }
    ensures answer { checked result ≡ first_of (node_late_refusal sheet.now) 1 n }
    ensures buffer { OnOk result (take (total_streams sheet.now) waits.new ≡ listed_waits sheet.now) }
{
    let mut at: usize = 0;
    for i in 0..n {
        judge_node(sheet, i + 1, cycle, &mut waits[at..])?;
        at += wide(stream_count(sheet, i + 1));
    }
    Ok(())
}

// Refusal 7 of a valid sheet, or success with its number of streams and C. The listed waits go into the room's first words once
// the last stream is judged; a refusal writes nothing.
pub fn judge_sheet(sheet: &[u32], total: usize, room: &mut [u32]) -> Result<Admitted, Refusal>
    requires { Valid sheet.now × (total ≡ total_streams sheet.now) × (total ≤ length room.old) }
    ensures answer { answered admitted_numbers result ≡ first_of (node_late_refusal sheet.now) 1 (nodes sheet.now) or_else success (total_streams sheet.now) (full_cycle sheet.now) }
    ensures buffer { room.new ≡ buffer_after (answered admitted_numbers result) (listed_waits sheet.now) room.old }
{
    let cycle = cycle_of(sheet);
    let mut waits = [0u32; 256];
    judge_nodes(sheet, word_at(sheet, 0), cycle, &mut waits)?;
    fill::put(&waits[..total], room);
    Ok(Admitted {
        streams: total as u32,
        cycle,
    })
}
