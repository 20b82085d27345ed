// The verdict on one stream of a sheet, with a full cycle and a budget of its node that need not be the sheet's own.
#![tactic(auto)]

ghost use Rattle.std.specs.Prelude.{◌≡◌};
ghost use Rattle.model.specs.Sheet.{cycle as full_cycle, OnSheet, Valid};
ghost use Rattle.model.specs.Analysis.{timing_with, verdict_with, verdict_of};
ghost use Rattle.interference.specs.InRange.{CycleAndBudget};

use bodies::stream_of;
pub use cycle::cycle_of;
use higher::higher_streams;
use layout::{budget_of, word_at};
use model::{Timing, Verdict};
use wait::verdict_by;

mod cycle; // cycle.rt: the full cycle
mod higher; // higher.rt: who is ranked above a stream

// The timing of a node with that full cycle and budget.
pub fn timing_with(sheet: &[u32], cycle: u32, budget: u32) -> Timing
    ensures { result ≡ timing_with sheet.now cycle budget }
{
    Timing {
        cycle,
        budget,
        message: word_at(sheet, 1),
        slot: word_at(sheet, 2),
    }
}

// The verdict on stream j of node k with that full cycle and budget.
pub fn verdict_with(sheet: &[u32], cycle: u32, budget: u32, k: u32, j: u32) -> Verdict
    requires { Valid sheet.now × OnSheet sheet.now k j × CycleAndBudget cycle budget }
    ensures { result ≡ verdict_with sheet.now cycle budget k j }
{
    let stream = stream_of(sheet, k, j);
    let timing = timing_with(sheet, cycle, budget);
    let mut periods = [0u32; 16];
    let mut jitters = [0u32; 16];
    let n = higher_streams(sheet, k, stream, &mut periods, &mut jitters);
    verdict_by(&periods[..n], &jitters[..n], timing, stream)
}

// The verdict on stream j of node k with the sheet's own budget and, as `cycle`, its full cycle.
pub fn verdict_on(sheet: &[u32], k: u32, j: u32, cycle: u32) -> Verdict
    requires { Valid sheet.now × OnSheet sheet.now k j × (cycle ≡ full_cycle sheet.now) }
    ensures { result ≡ verdict_of sheet.now k j }
{
    verdict_with(sheet, cycle, budget_of(sheet, k), k, j)
}
