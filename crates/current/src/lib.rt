// A gate's current drawn into the sheet.
#![tactic(auto)]

mod draw;
mod edge;
mod gate;
mod level;
mod pass;
mod shape;
mod ticks;

pub use gate::draw_gate;
