// What the planner speaks of: streams, answers and the bus record, and in specs/ what document 01 says of them. There is no code
// here: the definitions in specs/ and the laws in proofs/ are what the other crates cite.
#![tactic(auto)]

// An answer: document 01's three numbers. Number 0 is success; any other is a refusal, and the two after it are its place.
#[repr(C)]
#[derive(Clone, Copy)]
pub struct Answer {
    pub number: u32,
    pub second: u32,
    pub third: u32,
}

// Document 01's "bus record": the tick at which the turn of a node starts, and how many turns have gone before it.
#[repr(C)]
#[derive(Clone, Copy)]
pub struct Bus {
    pub tick: u32,
    pub node: u32,
    pub turns: u32,
}

// Document 02's "stream record": how many messages of a stream have begun, the longest wait of one of them, and how many waited longer
// than the listed wait.
#[repr(C)]
#[derive(Clone, Copy)]
pub struct StreamRecord {
    pub begun: u32,
    pub longest: u32,
    pub over: u32,
}

// What the analysis finds of one stream: it is "late", or it has a "listed wait", found at J full cycles.
#[derive(Clone, Copy)]
pub enum Verdict {
    Late,
    Listed { wait: u32, cycles: u32 },
}

// A message stream of a node: its number there, its "least period", its "deadline" and its "jitter".
#[derive(Clone, Copy)]
pub struct Stream {
    pub number: u32,
    pub period: u32,
    pub deadline: u32,
    pub jitter: u32,
}

// What a wait and the late test go by beside the streams above: the full cycle, "C"; the node's budget, "m"; and the ticks of a message and of a
// protocol slot, "TMS" and "TPR".
#[derive(Clone, Copy)]
pub struct Timing {
    pub cycle: u32,
    pub budget: u32,
    pub message: u32,
    pub slot: u32,
}
