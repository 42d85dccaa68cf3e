// The first range of a row that shares an address with an earlier one, which rule 27 asks of blocks.
//
// Where each range lies above all before it or below them all, as converters write them, none meets another. Else a few ranges cover
// all earlier ones, and a range that lies clear of these meets none. For one that does not, and some behind it, the headers of all
// earlier ones are walked over once for as many as are held together.
ghost use Rattle.std.specs.Prelude.{◌≡◌, ◌<◌, ◌≤◌};
ghost use Rattle.ranges.specs.Steps.{meets_in, first_in, ReadyFor, Compared, Known, Searched, Going, Begun};

use crate::address::Span;
use crate::cover::take_in;
use crate::held::{Spans, TOGETHER, first_held};
use crate::lined::Ranges;
use crate::row::{Cursor, Range, first};

// As many ranges cover all earlier ones. Laws say 8.
const COVER: usize = 8;

// Holds so many ranges from `from` on, until one of them meets another that is held; answers whether one does.
fn hold(all: Ranges, from: Cursor, few: usize, held: &mut Spans<TOGETHER>) -> bool
    requires { ReadyFor all from few × (few ≤ 32) }
    ensures { Compared all.entry from.number few held.new.firsts held.new.lasts result }
{
    let mut c = from;
    for k in 0..few {
        let b = all.range_at(c);
        if held.front(k).meets(b.span) {
            return true;
        }
        held.put(k, b.span);
        c = b.next;
    }
    false
}

// One of the `few` ranges from `from` on meets an earlier one: another of these, or one before them.
fn few_meet(all: Ranges, from: Cursor, few: usize) -> bool
    requires { ReadyFor all from few × (few ≤ 32) }
    ensures { result ≡ meets_in all.entry from.number few }
{
    let mut held = Spans::of(Span::default());
    hold(all, from, few, &mut held) || first_held(all.front(from.number), held.front(few)).is_some()
}

// Passes over the ranges from `from` on that lie clear of the cover, and over those before number `known`, which are known to meet no
// earlier one, and covers them.
fn pass(all: Ranges, from: Cursor, known: usize, cover: &mut Spans<COVER>) -> Cursor
    requires { Going all cover.old.firsts cover.old.lasts from known }
    ensures searched { Searched all.entry cover.new.firsts cover.new.lasts result }
    ensures goes_on { result.number < all.entry.count → known ≤ result.number }
{
    let mut later = from;
    while later.number < all.count {
        let b = all.range_at(later);
        let passed = later.number < known;
        let clear = !cover.all().meets(b.span);
        if !(passed | clear) {
            return later;
        }
        take_in(&mut cover.firsts, &mut cover.lasts, b.span);
        later = b.next;
    }
    later
}

// The number of the first range that meets an earlier one. The ranges before `from` meet none, and are covered; those before number `stacked` meet none
// either. Where one of a few ranges meets, half as many are looked at.
fn search(all: Ranges, from: Cursor, stacked: usize, cover: &mut Spans<COVER>) -> Option<usize>
    requires { Going all cover.old.firsts cover.old.lasts from stacked }
    ensures { result ≡ first_in all.entry }
{
    let mut stop = from;
    let mut known = stacked;
    let mut few = TOGETHER;
    loop {
        stop = pass(all, stop, known, cover);
        let left = all.count - stop.number;
        if left == 0 {
            return None;
        }
        few = few.min(left);
        if !few_meet(all, stop, few) {
            known = stop.number + few;
        } else if few == 1 {
            return Some(stop.number);
        } else {
            few /= 2;
        }
    }
}

// How many ranges there are, from the first on, of which each lies above all before it or below them all. That none of these meets an
// earlier one is promised, and not how many they are. The first is given.
fn stacked(all: Ranges, first: Range) -> usize
    requires { Begun all first }
    ensures { Known all.entry result }
{
    let mut lowest = first.span.first;
    let mut highest = first.span.last;
    let mut c = first.next;
    while c.number < all.count {
        let b = all.range_at(c);
        let above = highest < b.span.first;
        let below = b.span.last < lowest;
        if !(above | below) {
            return c.number;
        }
        lowest = lowest.min(b.span.first);
        highest = highest.max(b.span.last);
        c = b.next;
    }
    c.number
}

// The number of the first range that meets an earlier one. At the start all ranges of the cover are the first one's.
pub fn first_meeting(all: Ranges) -> Option<usize>
    ensures { result ≡ first_in all.entry }
{
    if all.count == 0 {
        return None;
    }
    let b = all.range_at(first(all.at));
    let known = stacked(all, b);
    if all.count <= known {
        return None;
    }
    let mut cover = Spans::of(b.span);
    search(all, b.next, known, &mut cover)
}
