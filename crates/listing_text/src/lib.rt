// The printed lines of a tape's listing, as bytes.
#![tactic(auto)]

mod line_text;
mod listing;
mod put;

pub use listing::{Printed, list_line, opening};
pub use put::Text;
