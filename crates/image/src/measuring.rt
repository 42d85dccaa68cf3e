// How long the image of a COFF file would be: the rules of the options and of the file, then 14, and nothing is written.
ghost use Rattle.std.specs.Prelude.{◌≡◌, length};
ghost use Rattle.fields.specs.Refusal.{told, told_whole};
ghost use Rattle.fields.specs.Rules.{done};
ghost use Rattle.patterns.specs.Row.{options_of};
ghost use Rattle.coff.specs.Handed.{parts_in, source_in};
ghost use Rattle.image.specs.Converting.{Measured, sizing, measuring, conversion_numbers, conversion_of, numbers_of_conversion};

use crate::Figures;
use crate::walking::span;
use coff::parts::Coff;
use coff::reading::read;
use fields::refusal::{Reason, Refusal};
use patterns::row::are_refused;

// The figures of all sections together. The length of the image does not depend on the entry point.
pub fn measure(file: &Coff<'_>) -> Figures
    ensures { Measured (parts_in file.now) result.length result.kept }
{
    let mut length = 8;
    let mut kept = 0;
    for i in 0..file.sections.count {
        if let Some(part) = file.part_at(i) {
            length += span(part.size);
            kept += 1;
        }
    }
    Figures { length, kept }
}

// Rule 14, of a file that is read.
pub(crate) fn measure_sound(file: &Coff<'_>) -> Result<Figures, Reason>
    ensures { told_whole result ≡ conversion_of (sizing (done (source_in file.now))) }
{
    let made = measure(file);
    if 16777216 < made.length {
        return Err(Reason::ImageWouldBeTooLong);
    }
    Ok(made)
}

// The image's length and the number of kept sections, as converting the file answers where there is room enough.
pub fn measure_file(f: &[u8], patterns: &[u8]) -> Result<Figures, Refusal>
    ensures answers { told result ≡ conversion_of (measuring (options_of patterns.now) f.now) }
    ensures numbers { numbers_of_conversion (told result) ≡ conversion_numbers (measuring (options_of patterns.now) f.now) }
{
    if are_refused(patterns) {
        return Err(Reason::Patterns.into());
    }
    let file = read(f, patterns)?;
    Ok(measure_sound(&file)?)
}
