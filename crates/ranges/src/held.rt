// Ranges that are held, and those of a row compared with them. The first address of each stands in one slice and the last in another: where both stand in
// one, vector code has to part them, and the search of blocks in no order takes a tenth to a fifth longer.
ghost use Rattle.std.specs.Prelude.{◌≡◌, ◌<◌, ◌≤◌, length, replicate, set, take};
ghost use Rattle.ranges.specs.Held.{meets_held};
ghost use Rattle.ranges.specs.Steps.{held_in};

use crate::address::Span;
use crate::lined::Ranges;
use crate::row::first;

// So many ranges at most are held together. Promises and laws say 32.
pub(crate) const TOGETHER: usize = 32;

// Ranges by the first address of each and by the last.
#[derive(Clone, Copy)]
pub struct Held<'a> {
    pub firsts: &'a [u32],
    pub lasts: &'a [u32],
    pub ghost paired: { length lasts.now ≡ length firsts.now },
}

impl Held<'_> {
    // One of them shares an address with a range. All are looked at, also behind one that does: a loop that leaves early is not turned into vector
    // code. Zipped, the two slices make the search of blocks in two rows slower by 8 %.
    pub fn meets(self, span: Span) -> bool
        ensures { result ≡ meets_held self.entry.firsts.now self.entry.lasts.now span.first span.last }
    {
        let mut met = false;
        for (k, first) in self.firsts.iter().enumerate() {
            met |= (*first <= span.last) & (span.first <= self.lasts[k]);
        }
        met
    }
}

// Places for so many ranges, in two arrays for the same reason.
#[derive(Drop)]
pub(crate) struct Spans<const N: usize> {
    pub firsts: [u32; N],
    pub lasts: [u32; N],
    pub ghost long: { (length firsts ≡ N) × (length lasts ≡ N) },
}

impl<const N: usize> Spans<N> {
    // One range in each of them.
    pub(crate) fn of(span: Span) -> Self
        ensures { (result.firsts ≡ replicate N span.first) × (result.lasts ≡ replicate N span.last) }
    {
        Spans {
            firsts: [span.first; N],
            lasts: [span.last; N],
        }
    }

    // The place at `k` is taken by a range.
    pub(crate) fn put(&mut self, k: usize, span: Span)
        requires { k < N }
        ensures { (self.new.firsts ≡ set self.old.firsts k span.first) × (self.new.lasts ≡ set self.old.lasts k span.last) }
    {
        self.firsts[k] = span.first;
        self.lasts[k] = span.last;
    }

    // The ranges in the first of them.
    pub(crate) fn front(&self, n: usize) -> Held<'_>
        requires { n ≤ N }
        ensures { (result.firsts.now ≡ take n self.now.firsts) × (result.lasts.now ≡ take n self.now.lasts) }
    {
        Held {
            firsts: &self.firsts[..n],
            lasts: &self.lasts[..n],
        }
    }

    // .. in all of them.
    pub(crate) fn all(&self) -> Held<'_>
        ensures { (result.firsts.now ≡ self.now.firsts) × (result.lasts.now ≡ self.now.lasts) }
    {
        Held {
            firsts: &self.firsts,
            lasts: &self.lasts,
        }
    }
}

// The number of the first range of a row that shares an address with one of those held.
pub fn first_held(all: Ranges, held: Held) -> Option<usize>
    ensures { result ≡ held_in all.entry held.entry.firsts.now held.entry.lasts.now }
{
    let mut c = first(all.at);
    while c.number < all.count {
        let b = all.range_at(c);
        if held.meets(b.span) {
            return Some(c.number);
        }
        c = b.next;
    }
    None
}
