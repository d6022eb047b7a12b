// What the operations share: the checks of the arguments beside the file, and what they answer.
#![tactic(auto)]

pub mod arguments;
pub mod pattern;
pub mod split_order;

// What Envelope and Simulate find: the drop of their sheet in nanovolts, and its quiet tick, the last at which current flows.
#[derive(Clone, Copy)]
pub struct Currents {
    pub drop: u64,
    pub quiet: u64,
}

// How a search ends.
#[derive(Clone, Copy, PartialEq, Eq)]
pub enum Outcome {
    Exact,
    Within,
    Spent,
}

// What Search finds: its outcome, U, L, how many cases were split, how many there are, and the quiet tick of its sheet.
#[derive(Clone, Copy)]
pub struct Found {
    pub outcome: Outcome,
    pub upper: u64,
    pub lower: u64,
    pub splits: u64,
    pub cases: u64,
    pub quiet: u64,
}

// A maker's list of inputs in the order to be split: how many it names, and a byte for each, its net; 0 past them.
#[derive(Clone, Copy)]
pub struct SplitOrder {
    pub inputs: usize,
    pub nets: [u8; 64],
}
