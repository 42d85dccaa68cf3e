// What is handed on of a file: its sections one by one.
ghost use Rattle.std.specs.Prelude.{◌≡◌, ◌+◌, ◌<◌, ◌≤◌, length, take, drop};
ghost use Rattle.coff.specs.Parts.{ReadOf, Tells};

use crate::Sections;
use crate::headers::Headers;
use fields::Part;
use fields::ends::Begin;

// A file that was read: its bytes, its sections, of which each that is kept is whole and no two meet, and its entry point.
#[derive(Clone, Copy)]
pub struct Coff<'a> {
    pub bytes: &'a [u8],
    pub sections: Sections,
    pub entry: u32,
    ghost read: { ReadOf bytes.now sections },
}

impl<'a> Coff<'a> {
    // The part of section `i`, or none where it is left.
    pub fn part_at(&self, i: usize) -> Option<Part>
        requires { i < self.now.sections.count }
        ensures { Tells self.now.bytes.now self.now.sections i result }
    {
        if !self.sections.kept.has(i) {
            return None;
        }
        let headers = Headers {
            file: self.bytes,
            at: self.sections.at,
            count: self.sections.count,
        };
        let header = headers.header(i);
        Some(Part {
            size: header.size(),
            load: header.load(),
            run: header.run(),
            raw: header.raw(),
        })
    }

    // The raw bytes of a part that stands inside the file: exactly its size.
    pub fn bytes_of(&self, part: Part) -> &'a [u8]
        requires { part.raw.0 + part.size ≤ length self.now.bytes.now }
        ensures { result.now ≡ take part.size (drop part.raw.0 self.now.bytes.now) }
    {
        let from = part.raw.0 as usize;
        let to = part.raw.end(part.size);
        &self.bytes[from..to]
    }
}
