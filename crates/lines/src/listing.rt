// A whole file listed into a lent buffer: rule 15 after those of the file, and nothing is written before all are asked.
ghost use Rattle.std.specs.Prelude.{◌≡◌, ◌+◌, ◌≤◌, length};
ghost use Rattle.fields.specs.Patch.{patch};
ghost use Rattle.fields.specs.Refusal.{told, told_whole};
ghost use Rattle.fields.specs.Rules.{unless};
ghost use Rattle.coff.specs.Handed.{parts_in};
ghost use Rattle.lines.specs.Text.{lines_of};
ghost use Rattle.lines.specs.Handed.{text_in};
ghost use Rattle.lines.specs.Listing.{text_rules, listing, listing_numbers, listed_of, numbers_of_listing, buffer_after};
ghost use Rattle.lines.specs.Put.{Puts};

use crate::length::Measure;
use crate::piece::Text;
use coff::parts::Coff;
use coff::reading::read;
use fields::refusal::{Reason, Refusal};
use image::measuring::measure;

// One line for each kept section.
fn put_parts(text: &mut Text<'_>, file: &Coff<'_>)
    requires { text.old.end + length (lines_of (parts_in file.now)) ≤ length text.old.bytes.now }
    ensures { Puts text.old (lines_of (parts_in file.now)) text.new }
{
    for i in 0..file.sections.count {
        if let Some(part) = file.part_at(i) {
            text.section(i, part);
        }
    }
}

impl Measure<'_> {
    // The whole text at the start of a buffer; answered is how long it is.
    fn put(&self, bytes: &mut [u8]) -> usize
        requires { length (text_in self.now.file.now) ≤ length bytes.old }
        ensures length { result ≡ length (text_in self.now.file.now) }
        ensures text { bytes.new ≡ patch bytes.old 0 (text_in self.now.file.now) }
    {
        let file = self.file;
        let mut text = Text::new(bytes);
        text.head(file.sections.count, self.figures.kept, file.entry);
        put_parts(&mut text, file);
        text.image(self.figures.length);
        text.end
    }
}

// Rule 15, of a file that is not refused.
fn list_sound(file: &Coff<'_>, text: &mut [u8]) -> Result<usize, Reason>
    ensures answers { told_whole result ≡ listed_of (unless (text_rules (text_in file.now) (length text.old)) (text_in file.now)) }
    ensures leaves { text.new ≡ buffer_after (unless (text_rules (text_in file.now) (length text.old)) (text_in file.now)) text.old }
{
    let measured = Measure {
        file,
        figures: measure(file),
    };
    if measured.is_over(text.len()) {
        return Err(Reason::OutputTooShort);
    }
    Ok(measured.put(text))
}

// The file's text at the start of the lent buffer, whose other bytes stay; on a refusal all of them do. Answered is how long the text is.
pub fn list(f: &[u8], text: &mut [u8]) -> Result<usize, Refusal>
    ensures answers { told result ≡ listed_of (listing f.now (length text.old)) }
    ensures numbers { numbers_of_listing (told result) ≡ listing_numbers (listing f.now (length text.old)) }
    ensures leaves { text.new ≡ buffer_after (listing f.now (length text.old)) text.old }
{
    let file = read(f, b"")?;
    Ok(list_sound(&file, text)?)
}
