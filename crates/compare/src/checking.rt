// The check: rules 17 and 33, the rules of the file, those of the image, then 40 and 41.
ghost use Rattle.std.specs.Prelude.{◌≡◌};
ghost use Rattle.fields.specs.Options.{in_order};
ghost use Rattle.fields.specs.Program.{program_of};
ghost use Rattle.fields.specs.Refusal.{told, told_whole};
ghost use Rattle.fields.specs.Rules.{ruling_of};
ghost use Rattle.patterns.specs.Row.{options_of};
ghost use Rattle.coff.specs.Handed.{source_in};
ghost use Rattle.image.specs.Handed.{undone_in, source_of_image};
ghost use Rattle.image.specs.Walking.{Accepted};
ghost use Rattle.compare.specs.Checking.{difference_rules, checking, check_numbers, numbers_of_verdict};

use crate::placement::is_same;
use coff::parts::Coff;
use fields::refusal::{Reason, Refusal};
use image::blocks::Image;
use image::order::is_no_order;
use patterns::row::are_refused;

// Rules 40 and 41, of an image and a file that are both read.
fn against(file: &Coff<'_>, image: &Image<'_>) -> Result<(), Reason>
    requires { Accepted (undone_in image.now) image.now.entry image.now.blocks }
    ensures { told_whole result ≡ ruling_of (difference_rules (program_of (source_in file.now)) (program_of (source_of_image image.now))) }
{
    if file.entry != image.entry {
        return Err(Reason::EntryDiffers);
    }
    if !is_same(file, image) {
        return Err(Reason::PlacementDiffers);
    }
    Ok(())
}

// Whether the image places and enters what the file does, for every pair of byte rows.
pub fn check(file: &[u8], image: &[u8], patterns: &[u8], order: u32) -> Result<(), Refusal>
    ensures answers { told result ≡ checking (in_order order (options_of patterns.now)) file.now image.now }
    ensures numbers { numbers_of_verdict (told result) ≡ check_numbers (checking (in_order order (options_of patterns.now)) file.now image.now) }
{
    if are_refused(patterns) {
        return Err(Reason::Patterns.into());
    }
    if is_no_order(order) {
        return Err(Reason::Order.into());
    }
    let file = coff::reading::read(file, patterns)?;
    let image = image::reader::read(image, order)?;
    Ok(against(&file, &image)?)
}
