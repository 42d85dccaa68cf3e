// One block of an image, written from a place on in the order that is asked for. Output, place and order are parameters and no struct: each promise would
// have to say besides that order and length are as they were.
#![tactic(auto, unfolding(crate::specs::Layout::span_of))]

ghost use Rattle.std.specs.Prelude.{◌≡◌, ◌+◌, ◌*◌, ◌/◌, ◌<◌, ◌≤◌, length, take, drop};
ghost use Rattle.fields.specs.Patch.{patch};
ghost use Rattle.fields.specs.Number.{number};
ghost use Rattle.fields.specs.Turning.{turned};
ghost use Rattle.image.specs.Layout.{rounded_up, span_of, area_of};
ghost use Rattle.image.specs.Order.{area_in};
ghost use Rattle.image.specs.Spelling.{spelled_block};

use crate::number::put_number;
use crate::order::turns_data;
use crate::walking::span;
use fields::buffer::copy_front;
use fields::number::put_u32;
use fields::turning::{copy_turned, turned_number};
use fields::{LoadAddress, RunAddress};

// The bytes `raw`, written from `at` on.
#[tactic(auto, using(fields::proofs::PatchLaws::part_front))]
fn put_raw(out: &mut [u8], at: usize, raw: &[u8])
    requires { at + length raw.now ≤ length out.old }
    ensures { out.new ≡ patch out.old at raw.now }
{
    copy_front(&mut out[at..], raw);
}

// The data area of the bytes `raw`, written from `at` up to `end`. Its last four bytes are made zero first, by a single store:
// what the bytes then leave of them is the padding.
#[tactic(auto, using(crate::proofs::AreaLaws::area_none, crate::proofs::AreaLaws::area_written))]
fn put_plain(out: &mut [u8], at: usize, raw: &[u8], end: usize)
    requires { (end ≡ at + rounded_up (length raw.now)) × (end ≤ length out.old) }
    ensures { out.new ≡ patch out.old at (area_of raw.now) }
{
    if 0 < raw.len() {
        put_u32(out, end - 4, 0);
    }
    put_raw(out, at, raw);
}

// The number that the bytes from `from` on spell, at most three of them, the lowest first.
fn last_number(raw: &[u8], from: usize) -> u32
    requires { (from ≤ length raw.now) × (length raw.now < from + 4) }
    ensures { result ≡ number (drop from raw.now) }
{
    let mut n = 0;
    for byte in raw[from..].iter().rev() {
        n = 256 * n + u32::from(*byte);
    }
    n
}

// The whole fours of the bytes `raw`, each of them reversed, written from `at` on.
fn put_fours(out: &mut [u8], at: usize, raw: &[u8])
    requires { at + length raw.now ≤ length out.old }
    ensures { out.new ≡ patch out.old at (turned (take (4 * (length raw.now / 4)) raw.now)) }
{
    copy_turned(&mut out[at..], raw);
}

// The same area, reversed in each four. What is left behind the whole fours is a number, whose upper bytes are the padding.
fn put_reversed(out: &mut [u8], at: usize, raw: &[u8], end: usize)
    requires { (end ≡ at + rounded_up (length raw.now)) × (end ≤ length out.old) }
    ensures { out.new ≡ patch out.old at (turned (area_of raw.now)) }
{
    let whole = raw.len() / 4 * 4;
    put_fours(out, at, raw);
    if whole < raw.len() {
        put_u32(out, end - 4, turned_number(last_number(raw, whole)));
    }
}

#[tactic(auto, using(crate::proofs::OrderLaws::area_turns, crate::proofs::OrderLaws::area_stays))]
fn put_area(out: &mut [u8], at: usize, raw: &[u8], end: usize, order: u32)
    requires { (end ≡ at + rounded_up (length raw.now)) × (end ≤ length out.old) }
    ensures { out.new ≡ patch out.old at (area_in order (area_of raw.now)) }
{
    if turns_data(order) {
        put_reversed(out, at, raw, end);
    } else {
        put_plain(out, at, raw, end);
    }
}

// In the image the load address comes first. Padding is not counted in the size.
pub fn put_block(
    out: &mut [u8],
    at: usize,
    load: LoadAddress,
    run: RunAddress,
    raw: &[u8],
    order: u32,
) -> usize
    requires { (at + span_of (length raw.now) ≤ length out.old) × (length raw.now < 4294967296) }
    ensures answers { result ≡ at + span_of (length raw.now) }
    ensures leaves { out.new ≡ patch out.old at (spelled_block order (record { load = load.0; run = run.0; bytes = raw.now })) }
{
    let size = raw.len() as u32;
    let next = at + span(size);
    put_number(out, at, size, order);
    put_number(out, at + 4, load.0, order);
    put_number(out, at + 8, run.0, order);
    put_area(out, at + 12, raw, next, order);
    next
}
