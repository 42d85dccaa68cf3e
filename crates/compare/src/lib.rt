// The check of an image against a COFF file.
#![tactic(auto)]

pub mod checking;
mod equal;
mod matching;
mod placement;
mod scanning;
mod stored;
