// Loading straight from a COFF file: its kept sections are the blocks. The two loops are those of from_image.rt, over sections by number in place of
// blocks by cursor.
ghost use Rattle.std.specs.Prelude.{◌≡◌, length};
ghost use Rattle.fields.specs.Program.{blocks_of_parts};
ghost use Rattle.fields.specs.Refusal.{told};
ghost use Rattle.fields.specs.Rules.{Silent, ruling_of};
ghost use Rattle.patterns.specs.Row.{options_of};
ghost use Rattle.coff.specs.Handed.{parts_in};
ghost use Rattle.loader.specs.Placing.{placed, sizes_of};
ghost use Rattle.loader.specs.Loading.{outside_rules, loading_coff, loading_numbers, loading_of, numbers_of_loading, window_after};

use crate::placing::place;
use crate::window::Window;
use coff::parts::Coff;
use coff::reading::read;
use fields::refusal::{Reason, Refusal};
use patterns::row::are_refused;

// Rule 29: the first kept section that is not wholly inside, if there is one.
fn fit_parts(file: &Coff<'_>, window: Window) -> Result<(), Refusal>
    ensures { told result ≡ ruling_of (outside_rules window.base window.room (parts_in file.now)) }
{
    for i in 0..file.sections.count {
        if let Some(part) = file.part_at(i) {
            if !window.holds(part.load, part.size) {
                return Err(Reason::Outside.at(i));
            }
        }
    }
    Ok(())
}

// Puts all kept sections into the window, and tells how many bytes that was.
fn place_parts(file: &Coff<'_>, base: usize, window: &mut [u8]) -> usize
    requires { Silent (outside_rules base (length window.old) (parts_in file.now)) }
    ensures { (result ≡ sizes_of (blocks_of_parts (parts_in file.now))) × (window.new ≡ placed base window.old (blocks_of_parts (parts_in file.now))) }
{
    let mut bytes = 0;
    for i in 0..file.sections.count {
        if let Some(part) = file.part_at(i) {
            place(window, base, part.load, file.bytes_of(part));
            bytes += part.size as usize;
        }
    }
    bytes
}

// Rule 17, rule 28, the rules of the file, rule 29; only then is the first byte written.
pub fn load_coff(
    f: &[u8],
    base: usize,
    window: &mut [u8],
    patterns: &[u8],
) -> Result<usize, Refusal>
    ensures answers { told result ≡ loading_of (loading_coff (options_of patterns.now) f.now base (length window.old)) }
    ensures numbers { numbers_of_loading (told result) ≡ loading_numbers (loading_coff (options_of patterns.now) f.now base (length window.old)) }
    ensures leaves { window.new ≡ window_after (loading_coff (options_of patterns.now) f.now base (length window.old)) base window.old }
{
    if are_refused(patterns) {
        return Err(Reason::Patterns.into());
    }
    let addresses = Window::new(base, window.len())?;
    // `?` would move the file: that takes a tenth longer where the file is small (docs/DECISIONS.md, 135).
    match &read(f, patterns) {
        Ok(file) => {
            fit_parts(file, addresses)?;
            Ok(place_parts(file, base, window))
        }
        Err(refusal) => Err(*refusal),
    }
}
