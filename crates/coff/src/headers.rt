// The headers of all sections, one behind the other.
ghost use Rattle.std.specs.Prelude.{◌≡◌, ◌<◌, ◌*◌, ◌+◌};
ghost use Rattle.coff.specs.Steps.{Laid};

use crate::section::Header;

// Where they begin in the file, and how many they are; all lie inside.
#[derive(Clone, Copy)]
pub struct Headers<'a> {
    pub file: &'a [u8],
    pub at: usize,
    pub count: usize,
    ghost laid: { Laid file.now at count },
}

impl<'a> Headers<'a> {
    // That of section `i`.
    pub fn header(&self, i: usize) -> Header<'a>
        requires { i < self.now.count }
        ensures { (result.file.now ≡ self.now.file.now) × (result.at ≡ self.now.at + 48 * i) }
    {
        Header {
            file: self.file,
            at: self.at + 48 * i,
        }
    }
}
