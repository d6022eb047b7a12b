// Rows of 256 ticks in a lent buffer of bytes, 160 bytes a net. A row has four parts of 64 ticks and 32 bytes each: a word of eight
// bytes for each of l, h, hl and lh, lowest first.
#![tactic(auto)]

mod excitation_row;
mod part;

pub use excitation_row::{read_row, write_row};
pub use part::{read_part, write_part};
