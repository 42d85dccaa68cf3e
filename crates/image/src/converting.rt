// A COFF file made into an image: rules 14 and 15 after those of the file, and nothing is written before all are asked.
ghost use Rattle.std.specs.Prelude.{◌≡◌, ◌+◌, ◌≤◌, length};
ghost use Rattle.fields.specs.Options.{in_order};
ghost use Rattle.fields.specs.Patch.{patch};
ghost use Rattle.fields.specs.Program.{blocks_of_parts, program_of};
ghost use Rattle.fields.specs.Refusal.{told, told_whole};
ghost use Rattle.fields.specs.Rules.{done};
ghost use Rattle.patterns.specs.Row.{options_of};
ghost use Rattle.coff.specs.Handed.{parts_in, source_in};
ghost use Rattle.image.specs.Layout.{spans_of, image_of, image_length};
ghost use Rattle.image.specs.Order.{written};
ghost use Rattle.image.specs.Spelling.{spelled_blocks};
ghost use Rattle.image.specs.Converting.{writing, converting, conversion_numbers, conversion_of, numbers_of_conversion, output_after};

use crate::Figures;
use crate::measuring::measure_sound;
use crate::number::put_number;
use crate::order::is_no_order;
use crate::writing::put_block;
use coff::parts::Coff;
use coff::reading::read;
use fields::refusal::{Reason, Refusal};
use patterns::row::are_refused;

// All blocks, written behind the entry point.
fn put_parts(file: &Coff<'_>, out: &mut [u8], order: u32) -> usize
    requires { 4 + spans_of (blocks_of_parts (parts_in file.now)) ≤ length out.old }
    ensures answers { result ≡ 4 + spans_of (blocks_of_parts (parts_in file.now)) }
    ensures leaves { out.new ≡ patch out.old 4 (spelled_blocks order (blocks_of_parts (parts_in file.now))) }
{
    let mut to = 4;
    for i in 0..file.sections.count {
        if let Some(part) = file.part_at(i) {
            to = put_block(out, to, part.load, part.run, file.bytes_of(part), order);
        }
    }
    to
}

// Entry point, the blocks in order, and four zero bytes as the end flag.
fn put_image(file: &Coff<'_>, out: &mut [u8], order: u32)
    requires { image_length (program_of (source_in file.now)) ≤ length out.old }
    ensures { out.new ≡ patch out.old 0 (written order (image_of (program_of (source_in file.now)))) }
{
    put_number(out, 0, file.entry, order);
    let end = put_parts(file, out, order);
    put_number(out, end, 0, order);
}

// Rules 14 and 15, of a file that is read.
fn convert_sound(file: &Coff<'_>, out: &mut [u8], order: u32) -> Result<Figures, Reason>
    ensures answers { told_whole result ≡ conversion_of (writing (done (source_in file.now)) (length out.old)) }
    ensures leaves { out.new ≡ output_after order (writing (done (source_in file.now)) (length out.old)) out.old }
{
    let made = measure_sound(file)?;
    if out.len() < made.length {
        return Err(Reason::OutputTooShort);
    }
    put_image(file, out, order);
    Ok(made)
}

// The file's image at the start of the lent output, whose other bytes stay; on a refusal all of them do.
pub fn convert(f: &[u8], out: &mut [u8], patterns: &[u8], order: u32) -> Result<Figures, Refusal>
    ensures answers { told result ≡ conversion_of (converting (in_order order (options_of patterns.now)) f.now (length out.old)) }
    ensures numbers { numbers_of_conversion (told result) ≡ conversion_numbers (converting (in_order order (options_of patterns.now)) f.now (length out.old)) }
    ensures leaves { out.new ≡ output_after order (converting (in_order order (options_of patterns.now)) f.now (length out.old)) out.old }
{
    if are_refused(patterns) {
        return Err(Reason::Patterns.into());
    }
    if is_no_order(order) {
        return Err(Reason::Order.into());
    }
    // `?` would move the file: that takes a tenth longer where the file is small (docs/DECISIONS.md, 135).
    match &read(f, patterns) {
        Ok(file) => Ok(convert_sound(file, out, order)?),
        Err(refusal) => Err(*refusal),
    }
}
