// Number fields: numbers in bytes, bytes put into a buffer as they are or reversed in each four, the maker's three quantities with the ends of their ranges, and why a call refuses.
#![tactic(auto)]

pub mod buffer;
pub mod ends;
pub mod number;
pub mod refusal;
pub mod turning;

// Where bytes are put by the loader.
#[derive(Clone, Copy, Debug, PartialEq, Eq)]
pub struct LoadAddress(pub u32);

// Where bytes stand when the program runs.
#[derive(Clone, Copy, Debug, PartialEq, Eq)]
pub struct RunAddress(pub u32);

// Where bytes stand in a file or in an image.
#[derive(Clone, Copy, Debug, PartialEq, Eq)]
pub struct FileOffset(pub u32);

// What is told of a block, of a file or of an image: how many bytes it has, where they are loaded, where they run, and where they stand.
#[derive(Clone, Copy, Debug, PartialEq, Eq)]
pub struct Part {
    pub size: u32,
    pub load: LoadAddress,
    pub run: RunAddress,
    pub raw: FileOffset,
}
