// What is handed on of an image: its blocks one by one.
ghost use Rattle.std.specs.Prelude.{◌≡◌, ◌<◌, length};
ghost use Rattle.image.specs.Order.{undone};
ghost use Rattle.image.specs.Reading.{entry_in, blocks_in};
ghost use Rattle.image.specs.Walking.{Framed, Here, TellsIn};

use crate::walking;
use crate::walking::BlockHeader;
use ranges::row::Cursor;

// An image that rules 20 to 26 do not refuse in the order that is told: its bytes, its entry point, and how many blocks it has.
#[derive(Clone, Copy)]
pub struct Image<'a> {
    pub bytes: &'a [u8],
    pub order: u32,
    pub entry: u32,
    pub blocks: usize,
    ghost framed: { Framed (undone order bytes.now) },
    ghost enters: { entry ≡ entry_in (undone order bytes.now) },
    ghost counted: { blocks ≡ length (blocks_in (undone order bytes.now)) },
}

impl<'a> Image<'a> {
    // The block at a cursor, which stands at the block of its number.
    pub fn block_at(&self, c: Cursor) -> BlockHeader
        requires { (Here (undone self.now.order self.now.bytes.now) c) × (c.number < self.now.blocks) }
        ensures { TellsIn self.now.order self.now.bytes.now c result }
    {
        walking::block_at(self.bytes, c, self.order)
    }
}
