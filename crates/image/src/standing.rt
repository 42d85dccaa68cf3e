// What stands at a place of an image, in constant time, whether or not the image can be read: rule 33, then those of the place.
#![tactic(auto, unfolding(crate::specs::Layout::span_of))]

ghost use Rattle.std.specs.Prelude.{◌≡◌};
ghost use Rattle.fields.specs.Options.{plain, in_order};
ghost use Rattle.fields.specs.Refusal.{told, told_whole};
ghost use Rattle.image.specs.Asking.{asked_numbers, asked_of, numbers_of_asked};
ghost use Rattle.image.specs.Order.{undone_from};
ghost use Rattle.image.specs.Standing.{standing, standing_in};

use crate::number::number_at;
use crate::order::is_no_order;
use crate::walking;
use fields::refusal::{Reason, Refusal};
use fields::{FileOffset, LoadAddress, Part, RunAddress};
use ranges::row::Cursor;

// The rules of the place.
fn standing(s: &[u8], place: usize, order: u32) -> Result<Part, Reason>
    ensures { told_whole result ≡ asked_of (standing (undone_from order place s.now) place) }
{
    let n = s.len();
    if 16777216 < n {
        return Err(Reason::ImageTooLong);
    }
    if n < place {
        return Err(Reason::ImageCut);
    }
    let left = n - place;
    if left < 4 {
        return Err(Reason::ImageCut);
    }
    let size = number_at(s, place, order);
    if size == 0 {
        return Ok(Part {
            size: 0,
            load: LoadAddress(0),
            run: RunAddress(0),
            raw: FileOffset(0),
        });
    }
    if left < walking::span(size) {
        return Err(Reason::ImageCut);
    }
    let cursor = Cursor {
        at: place,
        number: 0,
    };
    Ok(walking::header_at(s, cursor, order).part)
}

// A whole block, or the end flag, whose numbers are all 0.
pub fn stands_at(s: &[u8], place: usize, order: u32) -> Result<Part, Refusal>
    ensures answers { told result ≡ asked_of (standing_in (in_order order plain) s.now place) }
    ensures numbers { numbers_of_asked (told result) ≡ asked_numbers (standing_in (in_order order plain) s.now place) }
{
    if is_no_order(order) {
        return Err(Reason::Order.into());
    }
    Ok(standing(s, place, order)?)
}
