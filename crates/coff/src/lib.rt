// A COFF file as read.
#![tactic(auto)]

mod bits;
mod choosing;
mod header;
mod headers;
mod names;
mod overlap;
pub mod parts;
mod ranges;
pub mod reading;
mod section;

// Which of up to 256 sections are kept: a bit for each.
#[derive(Clone, Copy)]
pub struct Marks {
    words: [u64; 4],
}

// The sections of a file that is not refused: where their headers begin, how many there are, and which are kept.
// A crate above asks for them by their numbers, and looks at nothing but the count.
#[derive(Clone, Copy)]
pub struct Sections {
    at: usize,
    pub count: usize,
    kept: Marks,
}
