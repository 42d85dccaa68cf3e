// The bytes of one block, put into the window where they belong. A window and its base are no struct here: the part `&mut window[at..]` is lent on from the
// parameter itself, which is a form that stays.
ghost use Rattle.std.specs.Prelude.{◌≡◌, ◌+◌, ◌-◌, ◌≤◌, length, take};
ghost use Rattle.fields.specs.Patch.{patch};
ghost use Rattle.image.specs.Layout.{rounded_up};
ghost use Rattle.image.specs.Order.{area_at};

use fields::buffer::copy_front;
use fields::{LoadAddress, Part};
use image::area::copy_bytes;

// Puts a block's bytes into the window: the part from load minus base on is lent to the copy.
pub fn place(window: &mut [u8], base: usize, load: LoadAddress, bytes: &[u8])
    requires { (base ≤ load.0) × (load.0 + length bytes.now ≤ base + length window.old) }
    ensures { window.new ≡ patch window.old (load.0 - base) bytes.now }
{
    let at = load.0 as usize - base;
    copy_front(&mut window[at..], bytes);
}

// The same of a block whose data area stands in an image, in the order that is told: exactly its size is copied.
pub fn place_area(window: &mut [u8], base: usize, s: &[u8], part: Part, order: u32)
    requires { (base ≤ part.load.0) × (part.load.0 + part.size ≤ base + length window.old) × (part.raw.0 + rounded_up part.size ≤ length s.now) }
    ensures { window.new ≡ patch window.old (part.load.0 - base) (take part.size (area_at order s.now part.raw.0 part.size)) }
{
    let at = part.load.0 as usize - base;
    copy_bytes(
        &mut window[at..],
        s,
        part.raw.0 as usize,
        part.size as usize,
        order,
    );
}
