// A block as it stands in an image.
ghost use Rattle.std.specs.Prelude.{◌≡◌, length};
ghost use Rattle.image.specs.Layout.{rounded_up};

use fields::Part;

// Its data area, in the order of the image, and what the image says of it.
#[derive(Clone, Copy)]
pub struct Stored<'a> {
    pub area: &'a [u8],
    pub part: Part,
    pub order: u32,
    ghost whole: { length area.now ≡ rounded_up part.size },
}
