// Numbers of the machine: the first place at which one is greatest, and words in bytes.
#![tactic(auto)]

mod greatest;
mod words;

pub use greatest::first_greatest;
pub use words::{read_word, write_word};
