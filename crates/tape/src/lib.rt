// Tapes: reading at a place, and the stretch of the tape that holds a line's writes.
#![tactic(auto)]

mod reading;
mod stretch;

pub use reading::{FIRST_PLACE, LONGEST_TAPE, Place, read_at};
pub use stretch::stretch_at;
