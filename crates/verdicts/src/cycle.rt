// The full cycle of a sheet.
ghost use Rattle.std.specs.Prelude.{◌≡◌, ◌≤◌};
ghost use Rattle.model.specs.Sheet.{nodes, budgets_up_to, cycle as full_cycle, Valid};

use layout::{budget_of, word_at};

// The budgets of nodes 1 to n together.
fn budgets_up_to(sheet: &[u32], n: u32) -> u32
    requires { Valid sheet.now × (n ≤ nodes sheet.now) }
    ensures { result ≡ budgets_up_to sheet.now n }
{
    let mut sum: u32 = 0;
    for k in 1..=n {
        sum += budget_of(sheet, k);
    }
    sum
}

// The full cycle, "C".
pub fn cycle_of(sheet: &[u32]) -> u32
    requires { Valid sheet.now }
    ensures { result ≡ full_cycle sheet.now }
{
    let n = word_at(sheet, 0);
    budgets_up_to(sheet, n) * word_at(sheet, 1) + n * word_at(sheet, 2)
}
