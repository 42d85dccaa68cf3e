// A row of ranges in bytes: the blocks of an image, or the records of a table. The search reads a row here and nowhere else.
ghost use Rattle.std.specs.Prelude.{◌≡◌, ◌+◌, ◌≤◌, length};
ghost use Rattle.ranges.specs.Row.{number_of, room_of};
ghost use Rattle.ranges.specs.Steps.{First, AtRange, RangeAt};

use crate::address::{Span, last_address};
use fields::LoadAddress;
use fields::number::u32_at;
use fields::turning::turned_number;

// What the ranges of a row are.
#[derive(Clone, Copy, Debug, PartialEq, Eq)]
pub enum Kind {
    Blocks,
    Records,
}

// What kind of row it is, and whether its numbers stand reversed in each four bytes.
#[derive(Clone, Copy, Debug, PartialEq, Eq)]
pub struct Row {
    pub kind: Kind,
    pub turned: bool,
}

// Where a range begins, and its number.
#[derive(Clone, Copy, Debug, PartialEq, Eq)]
pub struct Cursor {
    pub at: usize,
    pub number: usize,
}

// The addresses of a range, and where the next one begins.
#[derive(Clone, Copy, Debug, PartialEq, Eq)]
pub struct Range {
    pub span: Span,
    pub next: Cursor,
}

// The cursor of the first range, which begins at `at`.
pub fn first(at: usize) -> Cursor
    ensures { First at result }
{
    Cursor { at, number: 0 }
}

// The number that stands at `at`.
pub fn number_at(s: &[u8], row: Row, at: usize) -> u32
    requires { at + 4 ≤ length s.now }
    ensures { result ≡ number_of row s.now at }
{
    let n = u32_at(s, at);
    if row.turned { turned_number(n) } else { n }
}

// The room of a range: its fields, and its bytes up to a multiple of eight or of four.
pub fn room(row: Row, size: u32) -> usize
    ensures { result ≡ room_of row size }
{
    match row.kind {
        Kind::Blocks => 12 + (size as usize + 3) / 4 * 4,
        Kind::Records => 8 + (size as usize + 7) / 8 * 8,
    }
}

// The range at a cursor.
pub fn range_at(s: &[u8], row: Row, c: Cursor) -> Range
    requires { AtRange row s.now c }
    ensures { RangeAt row s.now c result }
{
    let at = c.at;
    let size = number_at(s, row, at);
    let first = number_at(s, row, at + 4);
    let last = last_address(LoadAddress(first), size);
    Range {
        span: Span { first, last },
        next: Cursor {
            at: at + room(row, size),
            number: c.number + 1,
        },
    }
}
