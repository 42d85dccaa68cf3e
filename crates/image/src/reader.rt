// Reading an image: rule 33 of the order that is told, then rules 20 to 27 of what the image stands for in it.
#![tactic(auto, unfolding(crate::specs::Layout::span_of))]

ghost use Rattle.std.specs.Prelude.{◌≡◌, ◌+◌, ◌≤◌, length, drop, IfOk};
ghost use Rattle.fields.specs.Options.{plain, in_order};
ghost use Rattle.fields.specs.Refusal.{told, told_by};
ghost use Rattle.image.specs.Layout.{span_of};
ghost use Rattle.image.specs.Order.{undone, area_at};
ghost use Rattle.image.specs.Reading.{zeros, read_image, reading_in, reading_of, reading_numbers, numbers_of_reading};
ghost use Rattle.image.specs.Steps.{table_reading};
ghost use Rattle.image.specs.Handed.{contents_in};

use crate::area::place_in;
use crate::blocks::Image;
use crate::number::number_at;
use crate::order::is_no_order;
use crate::{Contents, meeting, walking};
use fields::ends::Begin;
use fields::refusal::{Reason, Refusal};

// The padding of the block that begins at `at` holds zero bytes only: what its data area has behind the block's bytes.
fn is_padded(s: &[u8], at: usize, size: u32, order: u32) -> bool
    requires { at + span_of size ≤ length s.now }
    ensures { result ≡ zeros (drop size (area_at order s.now (at + 12) size)) }
{
    let raw = at + 12;
    let end = walking::span(size) - 12;
    for i in size as usize..end {
        if s[raw + place_in(i, order)] != 0 {
            return false;
        }
    }
    true
}

// Rules 21 to 26, block by block, of what follows the entry point.
fn table(s: &[u8], order: u32) -> Result<Contents, Refusal>
    requires { (4 ≤ length s.now) × (length s.now ≤ 16777216) }
    ensures { told result ≡ table_reading (undone order s.now) }
{
    let n = s.len();
    let entry = number_at(s, 0, order);
    let mut c = walking::first();
    loop {
        let at = c.at;
        let k = c.number;
        let left = n - at;
        if left < 4 {
            return Err(Reason::ImageCut.at(k));
        }
        let size = number_at(s, at, order);
        if size == 0 {
            if 4 < left {
                return Err(Reason::BytesFollow.at(k));
            }
            return Ok(Contents { entry, blocks: k });
        }
        // At the 4,097th block k is 4096.
        if 4096 <= k {
            return Err(Reason::TooManyBlocks.at(k));
        }
        if left < walking::span(size) {
            return Err(Reason::ImageCut.at(k));
        }
        let b = walking::header_at(s, c, order);
        if 4294967296 < b.part.load.end(size) {
            return Err(Reason::BlockLoad.at(k));
        }
        if 4294967296 < b.part.run.end(size) {
            return Err(Reason::BlockRun.at(k));
        }
        if !is_padded(s, at, size, order) {
            return Err(Reason::Padding.at(k));
        }
        c = b.next;
    }
}

// The entry point and the block count, or the first rule that refuses the image. An image that is read is no more than its bytes, its order and these; they
// alone are answered through memory, which takes less stack.
fn contents(s: &[u8], order: u32) -> Result<Contents, Refusal>
    ensures { told result ≡ reading_of (read_image (undone order s.now)) }
{
    let n = s.len();
    if 16777216 < n {
        return Err(Reason::ImageTooLong.into());
    }
    if n < 4 {
        return Err(Reason::ImageCut.into());
    }
    let contents = table(s, order)?;
    if let Some(later) = meeting::first_meeting(s, contents.blocks, order) {
        return Err(Reason::BlocksMeet.at(later));
    }
    Ok(contents)
}

// The image, or the first rule that refuses it. It goes into each caller, as the next one does: else the image would be answered through memory.
#[inline(always)]
pub fn read<'a>(s: &'a [u8], order: u32) -> Result<Image<'a>, Refusal>
    ensures answers { told_by contents_in result ≡ reading_of (read_image (undone order s.now)) }
    ensures numbers { numbers_of_reading (told_by contents_in result) ≡ reading_numbers (read_image (undone order s.now)) }
    ensures image { IfOk result (λ image. (image.bytes.now ≡ s.now) × (image.order ≡ order)) }
{
    let contents = contents(s, order)?;
    Ok(Image {
        bytes: s,
        order,
        entry: contents.entry,
        blocks: contents.blocks,
    })
}

// The same of an order that anybody may tell: rule 33 comes first.
#[inline(always)]
pub(crate) fn image_in<'a>(s: &'a [u8], order: u32) -> Result<Image<'a>, Refusal>
    ensures answers { told_by contents_in result ≡ reading_of (reading_in (in_order order plain) s.now) }
    ensures numbers { numbers_of_reading (told_by contents_in result) ≡ reading_numbers (reading_in (in_order order plain) s.now) }
    ensures image { IfOk result (λ image. (image.bytes.now ≡ s.now) × (image.order ≡ order)) }
{
    if is_no_order(order) {
        return Err(Reason::Order.into());
    }
    read(s, order)
}

// What an image says of itself in such an order.
pub fn read_in(s: &[u8], order: u32) -> Result<Contents, Refusal>
    ensures answers { told result ≡ reading_of (reading_in (in_order order plain) s.now) }
    ensures numbers { numbers_of_reading (told result) ≡ reading_numbers (reading_in (in_order order plain) s.now) }
{
    let image = image_in(s, order)?;
    Ok(Contents {
        entry: image.entry,
        blocks: image.blocks,
    })
}
