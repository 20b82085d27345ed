// The tables that a sheet is made from: in specs/ what the sheet's words are, and when tables are refused; in proofs/ that reading and writing
// undo each other.
#![tactic(auto)]

// The lent tables, in the writer's order: of each node its number of streams and its budget; of each stream, in sheet order, its least
// period, its deadline and its jitter.
#[derive(Clone, Copy)]
pub struct Tables<'a> {
    pub message_ticks: u32,
    pub slot_ticks: u32,
    pub counts: &'a [u32],
    pub budgets: &'a [u32],
    pub periods: &'a [u32],
    pub deadlines: &'a [u32],
    pub jitters: &'a [u32],
}
