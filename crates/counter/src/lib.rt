// The six-bit counter of document 01: its two kinds and their steps, and counts and values by the classroom card.
#![tactic(auto)]

mod count;
mod counter;
mod kind;
mod step;

pub use count::{count_of_value, value_of_count};
pub use counter::Counter;
pub use kind::{CounterKind, Horizontal, Position};
