// Two blocks: how many addresses they share, where they agree on all of these.
ghost use Rattle.std.specs.Prelude.{◌≡◌};
ghost use Rattle.compare.specs.Matching.{block_with, matching};
ghost use Rattle.compare.specs.Stored.{block_of};

use crate::equal::equal_in;
use crate::stored::Stored;
use fields::{LoadAddress, RunAddress};

// Of a block of an image, how many addresses the block of bytes `x` shares, or 0 where the two do not agree.
pub fn matching(x: &[u8], xload: LoadAddress, xrun: RunAddress, y: &Stored<'_>) -> usize
    ensures { result ≡ matching (block_with x.now xload xrun) (block_of y.now) }
{
    let a = xload.0 as usize;
    let yload = y.part.load.0 as usize;
    let from = a.max(yload);
    let to = (a + x.len()).min(yload + y.part.size as usize);
    if to <= from {
        return 0;
    }
    if xrun.0 as usize + yload != y.part.run.0 as usize + a {
        return 0;
    }
    let x_from = from - a;
    let x_to = to - a;
    if equal_in(&x[x_from..x_to], y.area, from - yload, y.order) {
        return to - from;
    }
    0
}
