// A boot image: made of a COFF file, read, and asked for its blocks by number or by place.
#![tactic(auto)]

pub mod area;
pub mod asking;
pub mod blocks;
pub mod converting;
pub mod measuring;
mod meeting;
mod number;
pub mod order;
pub mod reader;
pub mod standing;
pub mod walking;
mod writing;

// What converting a file answers, and measuring it: the image's length and the number of kept sections.
#[derive(Clone, Copy, Debug, PartialEq, Eq)]
pub struct Figures {
    pub length: usize,
    pub kept: usize,
}

// What an image says of itself: its entry point, and how many blocks it has.
#[derive(Clone, Copy, Debug, PartialEq, Eq)]
pub struct Contents {
    pub entry: u32,
    pub blocks: usize,
}
