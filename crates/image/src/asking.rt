// Asking for one block of an image by its number: rule 33, those of the image, then rule 30.
ghost use Rattle.std.specs.Prelude.{◌≡◌, ◌<◌};
ghost use Rattle.fields.specs.Options.{plain, in_order};
ghost use Rattle.fields.specs.Refusal.{told};
ghost use Rattle.image.specs.Reading.{blocks_in};
ghost use Rattle.image.specs.Order.{undone};
ghost use Rattle.image.specs.Asking.{asking_in, asked_numbers, asked_of, numbers_of_asked, told_of, where_is};

use crate::blocks::Image;
use crate::{reader, walking};
use fields::Part;
use fields::refusal::{Reason, Refusal};

// The block of a number below their count. The walk goes by a cursor, as all over blocks do: where the next one stands is read at the last.
fn find(image: &Image<'_>, number: usize) -> Part
    requires { number < image.now.blocks }
    ensures { result ≡ told_of (where_is (blocks_in (undone image.now.order image.now.bytes.now)) number) }
{
    let mut c = walking::first();
    while c.number < number {
        c = image.block_at(c).next;
    }
    image.block_at(c).part
}

// Its size, its two addresses, and where its raw bytes begin.
pub fn ask(s: &[u8], number: usize, order: u32) -> Result<Part, Refusal>
    ensures answers { told result ≡ asked_of (asking_in (in_order order plain) s.now number) }
    ensures numbers { numbers_of_asked (told result) ≡ asked_numbers (asking_in (in_order order plain) s.now number) }
{
    let image = reader::image_in(s, order)?;
    if image.blocks <= number {
        return Err(Reason::NoSuchBlock.into());
    }
    Ok(find(&image, number))
}
