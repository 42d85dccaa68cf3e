// Rule 27: the first block whose load range shares an address with that of an earlier one. The blocks of an image are a row of ranges, over which crate
// `ranges` has the search.
ghost use Rattle.std.specs.Prelude.{◌≡◌, length};
ghost use Rattle.fields.specs.Counting.{found_below};
ghost use Rattle.fields.specs.Program.{meets_before};
ghost use Rattle.image.specs.Reading.{blocks_in};
ghost use Rattle.image.specs.Order.{undone};
ghost use Rattle.image.specs.Walking.{Framed};

use crate::number::row_in;
use ranges::lined::Ranges;
use ranges::meeting;

// Its number, if there is one. The first block stands behind the entry point.
pub fn first_meeting(s: &[u8], count: usize, order: u32) -> Option<usize>
    requires { (Framed (undone order s.now)) × (count ≡ length (blocks_in (undone order s.now))) }
    ensures { result ≡ found_below (meets_before (blocks_in (undone order s.now))) count }
{
    meeting::first_meeting(Ranges {
        bytes: s,
        row: row_in(order),
        at: 4,
        count,
    })
}
