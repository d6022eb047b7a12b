// Cases bounded: a case evaluated, a case made, by the drop of its probe and its upper number, and the sheet over the cases in the store.
#![tactic(auto)]

pub mod draw;
pub mod evaluate;
pub mod make;
