// A block's data area, in the order that is told: where a byte of it stands, and the copy of the block's bytes.
ghost use Rattle.std.specs.Prelude.{◌≡◌, ◌+◌, ◌≤◌, length, take, drop};
ghost use Rattle.fields.specs.Patch.{patch};
ghost use Rattle.fields.specs.Turning.{turned};
ghost use Rattle.image.specs.Layout.{rounded_up};
ghost use Rattle.image.specs.Order.{place_in, area_at};

use crate::order::turns_data;
use fields::buffer::copy_front;
use fields::turning::{copy_turned, turned_place};

// Where byte `i` of a data area stands in it.
#[tactic(auto, unfolding(crate::specs::Order::place_in))]
pub fn place_in(i: usize, order: u32) -> usize
    ensures { result ≡ place_in order i }
{
    if turns_data(order) {
        return turned_place(i);
    }
    i
}

// The bytes of a block whose area stands reversed in each four: whole fours at once, and then those of the last four that are the block's.
fn copy_reversed(to: &mut [u8], s: &[u8], raw: usize, size: usize)
    requires { (raw + rounded_up size ≤ length s.now) × (size ≤ length to.old) }
    ensures { to.new ≡ patch to.old 0 (take size (turned (take (rounded_up size) (drop raw s.now)))) }
{
    let whole = size / 4 * 4;
    let end = raw + whole;
    copy_turned(to, &s[raw..end]);
    for i in whole..size {
        to[i] = s[raw + turned_place(i)];
    }
}

// Copies the bytes of the block whose area begins at `raw`, exactly its size, over the front of `to`; what lies behind stays.
#[tactic(auto, using(crate::proofs::AreaAtLaws::area_turned, crate::proofs::AreaAtLaws::bytes_as_they_are))]
pub fn copy_bytes(to: &mut [u8], s: &[u8], raw: usize, size: usize, order: u32)
    requires { (raw + rounded_up size ≤ length s.now) × (size ≤ length to.old) }
    ensures { to.new ≡ patch to.old 0 (take size (area_at order s.now raw size)) }
{
    if turns_data(order) {
        copy_reversed(to, s, raw, size);
    } else {
        let end = raw + size;
        copy_front(to, &s[raw..end]);
    }
}
