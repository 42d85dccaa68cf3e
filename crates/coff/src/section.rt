// The header of one section: its fields, and whether the section is kept by them.
#![tactic(auto, unfolding(crate::specs::File::header_at))]

ghost use Rattle.std.specs.Prelude.{◌≡◌, ◌+◌, ◌≤◌, length};
ghost use Rattle.coff.specs.Kept.{is_shut_out, is_code_or_data, has_type};

use fields::number::u32_at;
use fields::{FileOffset, LoadAddress, RunAddress};

// Where a section's header stands in the file, of which all its 48 bytes lie inside.
#[derive(Clone, Copy)]
pub struct Header<'a> {
    pub file: &'a [u8],
    pub at: usize,
    ghost within: { at + 48 ≤ length file.now },
}

impl<'a> Header<'a> {
    ghost use Rattle.coff.specs.Kept.{is_kept};
    ghost use Rattle.coff.specs.Headers.{section_at};

    // Each of the five reads one field where it stands; no header is copied. In the file the run address comes first.
    pub fn run(&self) -> RunAddress
        ensures { result.0 ≡ (section_at self.now).run }
    {
        RunAddress(u32_at(self.file, self.at + 8))
    }

    pub fn load(&self) -> LoadAddress
        ensures { result.0 ≡ (section_at self.now).load }
    {
        LoadAddress(u32_at(self.file, self.at + 12))
    }

    pub fn size(&self) -> u32
        ensures { result ≡ (section_at self.now).size }
    {
        u32_at(self.file, self.at + 16)
    }

    pub fn raw(&self) -> FileOffset
        ensures { result.0 ≡ (section_at self.now).raw }
    {
        FileOffset(u32_at(self.file, self.at + 20))
    }

    fn flags(&self) -> u32
        ensures { result ≡ (section_at self.now).flags }
    {
        u32_at(self.file, self.at + 40)
    }

    // Both sentences want a size. Code and data have a type, so that only paper 01's can keep them, and only the one on plain sections any other.
    pub fn is_kept(&self) -> bool
        ensures { result ≡ is_kept (section_at self.now) }
    {
        if self.size() == 0 {
            return false;
        }
        let n = self.flags();
        if is_code_or_data(n) {
            return !is_shut_out(n);
        }
        let typed = has_type(n);
        !typed & !(self.raw().0 == 0)
    }
}

// DSECT, NOLOAD or COPY. A flag is a power of two; it is set where the quotient by it is odd.
fn is_shut_out(n: u32) -> bool
    ensures { result ≡ is_shut_out n }
{
    (n / 0x1 % 2 == 1) | (n / 0x2 % 2 == 1) | (n / 0x10 % 2 == 1)
}

// TEXT, DATA or VECTOR.
fn is_code_or_data(n: u32) -> bool
    ensures { result ≡ is_code_or_data n }
{
    (n / 0x20 % 2 == 1) | (n / 0x40 % 2 == 1) | (n / 0x8000 % 2 == 1)
}

// DSECT, NOLOAD, GROUP, PAD, COPY, TEXT, DATA, BSS or VECTOR.
fn has_type(n: u32) -> bool
    ensures { result ≡ has_type n }
{
    (n / 0x1 % 2 == 1)
        | (n / 0x2 % 2 == 1)
        | (n / 0x4 % 2 == 1)
        | (n / 0x8 % 2 == 1)
        | (n / 0x10 % 2 == 1)
        | (n / 0x20 % 2 == 1)
        | (n / 0x40 % 2 == 1)
        | (n / 0x80 % 2 == 1)
        | (n / 0x8000 % 2 == 1)
}
