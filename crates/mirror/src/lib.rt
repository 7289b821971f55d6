// Mirrored bytes, by which the chip reflects a player.
#![tactic(auto)]

mod mirrored_bytes;

pub use mirrored_bytes::mirrored;
