// Playing a tape on the chip, line by line.
#![tactic(auto)]

mod play;

pub use play::play_line;
