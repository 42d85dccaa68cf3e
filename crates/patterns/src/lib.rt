// Patterns that take names, and the row in which a caller lends them.
#![tactic(auto)]

mod byte;
mod length;
pub mod matching;
mod pieces;
pub mod row;
mod stars;
pub mod zero;

// What a step of the matcher finds: the name is taken; it is not, from where it begins; or it is not, from there or from any later place.
#[derive(Clone, Copy)]
enum Match {
    Taken,
    NotHere,
    Never,
}
