// The kit's TIA: the chip's state, one colour clock, a line, the collision read-out, and the first lit column.
#![tactic(auto)]

mod bits;
mod clock;
mod clock_call;
mod colours;
mod drawing;
mod first_lit;
mod latches;
mod line_call;
mod lit;
mod object;
mod playfield;
mod read_out_call;
mod registers;
mod state;
mod timing;
mod write;
mod write_list;

pub use clock_call::{Output, colour_clock};
pub use colours::Colours;
pub use drawing::Drawing;
pub use first_lit::first_lit_column;
pub use latches::Latches;
pub use line_call::line;
pub use object::{Object, Player};
pub use playfield::Playfield;
pub use read_out_call::read_out;
pub use registers::{Enable, Graphic, Nusiz, Registers};
pub use state::{Objects, State};
pub use timing::Timing;
pub use write::Write;
