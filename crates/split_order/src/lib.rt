// Makers of the list of inputs in the order to be split: by cone, and by the bounds of each input's children.
#![tactic(auto)]

pub mod by_bounds;
pub mod by_cone;
mod key;
mod reach;
mod sort;
