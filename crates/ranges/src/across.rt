// Two rows of ranges: the first range of one that shares an address with some range of the other.
ghost use Rattle.std.specs.Prelude.{◌≡◌, ◌≤◌};
ghost use Rattle.ranges.specs.Steps.{across_in, ReadyFor, FewHeld};

use crate::address::Span;
use crate::held::{Spans, TOGETHER, first_held};
use crate::lined::Ranges;
use crate::row::{Cursor, first};

// Holds so many ranges from `from` on, and answers where the next one begins.
fn hold_few(all: Ranges, from: Cursor, few: usize, held: &mut Spans<TOGETHER>) -> Cursor
    requires { ReadyFor all from few × (few ≤ 32) }
    ensures { FewHeld all.entry from.number few held.new.firsts held.new.lasts result }
{
    let mut c = from;
    for k in 0..few {
        let b = all.range_at(c);
        held.put(k, b.span);
        c = b.next;
    }
    c
}

// The number of the first of the other ranges that shares an address with one of all these. These are held a few at a time, and the others, up to one that
// was found, are walked over once for a few.
pub fn first_across(all: Ranges, others: Ranges) -> Option<usize>
    ensures { result ≡ across_in all.entry others.entry }
{
    let mut held = Spans::of(Span::default());
    let mut found = None;
    let mut c = first(all.at);
    while c.number < all.count {
        let few = TOGETHER.min(all.count - c.number);
        c = hold_few(all, c, few, &mut held);
        let most = found.unwrap_or(others.count);
        found = first_held(others.front(most), held.front(few)).or(found);
    }
    found
}
