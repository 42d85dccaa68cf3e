// Where a range of bytes ends, whichever of the maker's three quantities it begins at. The sum is counted wide: it may be 2^32 or more.
ghost use Rattle.std.specs.Prelude.{◌≡◌, ℕ, ◌+◌};

use crate::{FileOffset, LoadAddress, RunAddress};

// Where a range can begin.
pub trait Begin: Copy {
    ghost place_of: { Self → ℕ };

    fn place(self) -> u32
        ensures { result ≡ place_of self };

    // The place behind the last of `size` bytes from here on: behind exactly their size, and not behind the padding.
    fn end(self, size: u32) -> usize
        ensures { result ≡ place_of self + size }
    {
        self.place() as usize + size as usize
    }
}

impl Begin for LoadAddress {
    ghost place_of = { λ load. load.0 };

    fn place(self) -> u32 {
        self.0
    }
}

impl Begin for RunAddress {
    ghost place_of = { λ run. run.0 };

    fn place(self) -> u32 {
        self.0
    }
}

impl Begin for FileOffset {
    ghost place_of = { λ raw. raw.0 };

    fn place(self) -> u32 {
        self.0
    }
}
