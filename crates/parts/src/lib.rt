// Sixty-four ticks of uncertainty sets at once: a word for each of l, h, hl and lh, a bit for each tick.
#![tactic(auto)]

mod delay;
mod join;
mod number;
mod words;

// A part of a row: the words of 64 sets.
#[derive(Clone, Copy, Default)]
pub struct Part {
    pub l: u64,
    pub h: u64,
    pub hl: u64,
    pub lh: u64,
}

pub use join::join_parts;
pub use number::function_number;
