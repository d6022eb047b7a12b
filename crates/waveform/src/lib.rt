// Waveforms of uncertainty sets in the lent work buffer, 160 bytes a net.
#![tactic(auto)]

mod gate;
mod input;
mod joining;
mod row;

pub use gate::gate_waveform;
pub use input::input_waveform;
pub use row::arrival;
