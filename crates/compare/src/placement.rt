// Whether a file and an image place the same: every block of the image is matched, and both have as many bytes.
ghost use Rattle.std.specs.Prelude.{◌≡◌};
ghost use Rattle.fields.specs.Program.{blocks_of_parts};
ghost use Rattle.coff.specs.Handed.{parts_in};
ghost use Rattle.image.specs.Handed.{undone_in, blocks_of_image};
ghost use Rattle.image.specs.Walking.{Accepted};
ghost use Rattle.loader.specs.Placing.{sizes_of};
ghost use Rattle.compare.specs.Same.{same_placement};

use crate::scanning::find;
use crate::stored::Stored;
use coff::parts::Coff;
use image::blocks::Image;
use image::walking;

// The bytes of all parts.
fn part_sizes(file: &Coff<'_>) -> usize
    ensures { result ≡ sizes_of (blocks_of_parts (parts_in file.now)) }
{
    let mut bytes = 0;
    for i in 0..file.sections.count {
        if let Some(part) = file.part_at(i) {
            bytes += part.size as usize;
        }
    }
    bytes
}

// Block by block the sections are scanned from the one that was found last. Where every byte of the image is matched
// and the file has as many, no section is left over. In the order of the file a block costs one or two sections;
// in the worst order it costs all of them once: with 256 sections and 4,096 blocks about a million.
pub fn is_same(file: &Coff<'_>, image: &Image<'_>) -> bool
    requires { Accepted (undone_in image.now) image.now.entry image.now.blocks }
    ensures { result ≡ same_placement (blocks_of_parts (parts_in file.now)) (blocks_of_image image.now) }
{
    let mut c = walking::first();
    let mut hint = 0;
    let mut bytes = 0;
    while c.number < image.blocks {
        let b = image.block_at(c);
        let from = b.part.raw.0 as usize;
        let to = b.next.at;
        let block = Stored {
            area: &image.bytes[from..to],
            part: b.part,
            order: image.order,
        };
        let Some(section) = find(file, hint, &block) else {
            return false;
        };
        hint = section;
        bytes += b.part.size as usize;
        c = b.next;
    }
    part_sizes(file) == bytes
}
