// Loading from a boot image, in the order that is told. Both walks go by a cursor and count no index: where a block stands is told by the one before it.
ghost use Rattle.std.specs.Prelude.{◌≡◌, length};
ghost use Rattle.fields.specs.Options.{plain, in_order};
ghost use Rattle.fields.specs.Program.{blocks_of};
ghost use Rattle.fields.specs.Refusal.{told};
ghost use Rattle.fields.specs.Rules.{Silent, ruling_of};
ghost use Rattle.image.specs.Handed.{source_of_image};
ghost use Rattle.image.specs.Order.{undone};
ghost use Rattle.image.specs.Reading.{read_image};
ghost use Rattle.loader.specs.Placing.{placed, sizes_of};
ghost use Rattle.loader.specs.Loading.{outside_rules, loading, loading_image, loading_numbers, loading_of, numbers_of_loading, window_after};

use crate::placing::place_area;
use crate::window::Window;
use fields::refusal::{Reason, Refusal};
use image::blocks::Image;
use image::order::is_no_order;
use image::reader::read;
use image::walking::first;

// Rule 29: the first block that is not wholly inside the window, if there is one.
fn fit_blocks(image: &Image<'_>, window: Window) -> Result<(), Refusal>
    ensures { told result ≡ ruling_of (outside_rules window.base window.room (source_of_image image.now).parts) }
{
    let mut c = first();
    while c.number < image.blocks {
        let b = image.block_at(c);
        if !window.holds(b.part.load, b.part.size) {
            return Err(Reason::Outside.at(c.number));
        }
        c = b.next;
    }
    Ok(())
}

// Puts all blocks into the window, and tells how many bytes that was.
fn place_blocks(image: &Image<'_>, base: usize, window: &mut [u8]) -> usize
    requires { Silent (outside_rules base (length window.old) (source_of_image image.now).parts) }
    ensures { (result ≡ sizes_of (blocks_of (source_of_image image.now))) × (window.new ≡ placed base window.old (blocks_of (source_of_image image.now))) }
{
    let mut bytes = 0;
    let mut c = first();
    while c.number < image.blocks {
        let b = image.block_at(c);
        place_area(window, base, image.bytes, b.part, image.order);
        bytes += b.part.size as usize;
        c = b.next;
    }
    bytes
}

// Rule 28, the rules of the image, rule 29; only then is the first byte written.
fn load_ordered(s: &[u8], base: usize, window: &mut [u8], order: u32) -> Result<usize, Refusal>
    ensures answers { told result ≡ loading_of (loading (read_image (undone order s.now)) base (length window.old)) }
    ensures leaves { window.new ≡ window_after (loading (read_image (undone order s.now)) base (length window.old)) base window.old }
{
    let addresses = Window::new(base, window.len())?;
    let image = read(s, order)?;
    fit_blocks(&image, addresses)?;
    Ok(place_blocks(&image, base, window))
}

// Rule 33 of the order comes before all of these.
pub fn load_image(s: &[u8], base: usize, window: &mut [u8], order: u32) -> Result<usize, Refusal>
    ensures answers { told result ≡ loading_of (loading_image (in_order order plain) s.now base (length window.old)) }
    ensures numbers { numbers_of_loading (told result) ≡ loading_numbers (loading_image (in_order order plain) s.now base (length window.old)) }
    ensures leaves { window.new ≡ window_after (loading_image (in_order order plain) s.now base (length window.old)) base window.old }
{
    if is_no_order(order) {
        return Err(Reason::Order.into());
    }
    load_ordered(s, base, window, order)
}
