// Loading into one lent memory window.
#![tactic(auto)]

pub mod from_coff;
pub mod from_image;
mod placing;
mod window;
