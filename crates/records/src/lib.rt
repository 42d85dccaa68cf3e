// The records of a table of initial values, in a file or in an image.
#![tactic(auto)]

pub mod counting;
