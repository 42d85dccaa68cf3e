// An image's numbers: its entry point, and the sizes and addresses of its blocks. All of them are read and written here, in the order that is told.
ghost use Rattle.std.specs.Prelude.{◌≡◌, ◌+◌, ◌≤◌, length};
ghost use Rattle.fields.specs.Patch.{patch};
ghost use Rattle.image.specs.Layout.{number_bytes};
ghost use Rattle.image.specs.Order.{numbers_in, number_in};
ghost use Rattle.image.specs.Steps.{row_in};

use crate::order::turns_numbers;
use fields::number::put_u32;
use fields::turning::turned_number;
use ranges::row;
use ranges::row::{Kind, Row};

// The row of ranges that the blocks of an image are.
pub fn row_in(order: u32) -> Row
    ensures { result ≡ row_in order }
{
    Row {
        kind: Kind::Blocks,
        turned: turns_numbers(order),
    }
}

// The number that stands at `at`.
#[tactic(auto, using(crate::proofs::SpelledNumbers::row_number))]
pub fn number_at(s: &[u8], at: usize, order: u32) -> u32
    requires { at + 4 ≤ length s.now }
    ensures { result ≡ number_in order s.now at }
{
    row::number_at(s, row_in(order), at)
}

// Writes `n` at `at`.
#[tactic(auto, using(crate::proofs::SpelledNumbers::written_turned, crate::proofs::SpelledNumbers::written_itself))]
pub fn put_number(s: &mut [u8], at: usize, n: u32, order: u32)
    requires { at + 4 ≤ length s.old }
    ensures { s.new ≡ patch s.old at (numbers_in order (number_bytes n)) }
{
    if turns_numbers(order) {
        put_u32(s, at, turned_number(n));
    } else {
        put_u32(s, at, n);
    }
}
