// The listing of a COFF file as text.
#![tactic(auto)]

mod length;
mod line;
pub mod listing;
pub mod output;
mod piece;
