// How long a text is, before a byte of it is written.
ghost use Rattle.std.specs.Prelude.{◌≡◌, ◌≤◌, ltb, length};
ghost use Rattle.coff.specs.Handed.{parts_in};
ghost use Rattle.lines.specs.Text.{decimal, lines_of};
ghost use Rattle.lines.specs.Handed.{text_in};
ghost use Rattle.image.specs.Converting.{Measured};

use coff::parts::Coff;
use image::Figures;

fn decimal_length(n: usize) -> usize
    ensures { (result ≡ length (decimal n)) × (result ≤ 20) }
{
    n.max(1).ilog10() as usize + 1
}

// Of one line for each kept section: " load ", " run " and " size ", two addresses, and LF stand in each.
fn parts_length(file: &Coff<'_>) -> usize
    ensures { (result ≡ length (lines_of (parts_in file.now))) × (result ≤ 12032) }
{
    let mut total = 0;
    for i in 0..file.sections.count {
        if let Some(part) = file.part_at(i) {
            total += decimal_length(i) + decimal_length(part.size as usize) + 34;
        }
    }
    total
}

// A file that is not refused, as it is measured before it is listed.
#[derive(Clone, Copy)]
pub struct Measure<'a> {
    pub file: &'a Coff<'a>,
    pub figures: Figures,
    ghost measured: { Measured (parts_in file.now) figures.length figures.kept },
}

impl Measure<'_> {
    // Of the whole text.
    fn text_length(&self) -> usize
        ensures { result ≡ length (text_in self.now.file.now) }
    {
        // "coff sections ", " kept " and " entry ", an address, and LF
        let head = decimal_length(self.file.sections.count)
            + decimal_length(self.figures.kept)
            + 36;
        // "image " and LF
        let image = decimal_length(self.figures.length) + 7;
        head + parts_length(self.file) + image
    }

    // Rule 15: whether the text is longer than `room`. No text is longer than 16,384 bytes, so that it is measured for less room only.
    pub fn is_over(&self, room: usize) -> bool
        ensures { result ≡ ltb room (length (text_in self.now.file.now)) }
    {
        room < 16384 && room < self.text_length()
    }
}
