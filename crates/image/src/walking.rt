// Going through the blocks of an image by a cursor: one pass in all.
#![tactic(auto, unfolding(crate::specs::Layout::span_of))]

ghost use Rattle.std.specs.Prelude.{◌≡◌, ◌+◌, ◌<◌, ◌≤◌, length};
ghost use Rattle.image.specs.Layout.{span_of};
ghost use Rattle.image.specs.Order.{undone};
ghost use Rattle.image.specs.Walking.{First, Ready, TellsIn};
ghost use Rattle.image.specs.Steps.{FieldsIn};

use crate::number::{number_at, row_in};
use fields::{FileOffset, LoadAddress, Part, RunAddress};
use ranges::row;
use ranges::row::Cursor;

// What the image says of a block, and where the next block begins.
#[derive(Clone, Copy)]
pub struct BlockHeader {
    pub part: Part,
    pub next: Cursor,
}

// The cursor of the first block: behind the entry point.
pub fn first() -> Cursor
    ensures { First result }
{
    row::first(4)
}

// The room of a block: three fields and its data area, as long in every order.
#[tactic(auto, using(crate::proofs::SpelledNumbers::row_room))]
pub fn span(size: u32) -> usize
    ensures { result ≡ span_of size }
{
    row::room(row_in(0), size)
}

// The three fields that begin at a cursor. In the image the load address comes first.
pub fn header_at(s: &[u8], c: Cursor, order: u32) -> BlockHeader
    requires { (c.at + 12 ≤ length s.now) × (length s.now ≤ 16777216) × (c.number < 4096) }
    ensures { FieldsIn order s.now c result }
{
    let at = c.at;
    let size = number_at(s, at, order);
    let raw = at + 12;
    BlockHeader {
        part: Part {
            size,
            load: LoadAddress(number_at(s, at + 4, order)),
            run: RunAddress(number_at(s, at + 8, order)),
            raw: FileOffset(raw as u32),
        },
        next: Cursor {
            at: at + span(size),
            number: c.number + 1,
        },
    }
}

// The block at a cursor, in an image that rules 20 to 26 do not refuse. It asks less than an `Image` holds: no count, and no entry point.
pub fn block_at(s: &[u8], c: Cursor, order: u32) -> BlockHeader
    requires { Ready (undone order s.now) c }
    ensures { TellsIn order s.now c result }
{
    header_at(s, c, order)
}
