// A few ranges that cover many: what shares no address with these shares none with those. Which of them is widened for one more
// decides on how many lie clear of the cover, and never on an answer.
ghost use Rattle.std.specs.Prelude.{◌≡◌, ◌<◌, ◌≤◌, cond, eqb, length, get_or};
ghost use Rattle.ranges.specs.Cover.{gap_to, nearest_but, beside_of, apart_at, closest_of, reached, stretched, firsts_joined, lasts_joined, firsts_with, lasts_with};

use crate::address::Span;
use crate::held::Held;

// The first of two or more ranges, but for the one at `but`.
fn other_than(but: usize) -> usize
    ensures { (result ≡ cond (eqb but 0) 1 0) × (result ≤ 1) }
{
    if but == 0 { 1 } else { 0 }
}

impl Held<'_> {
    // The range at `k`.
    fn at(self, k: usize) -> Span
        requires { k < length self.firsts.now }
        ensures { (result.first ≡ get_or self.entry.firsts.now k 0) × (result.last ≡ get_or self.entry.lasts.now k 0) }
    {
        Span {
            first: self.firsts[k],
            last: self.lasts[k],
        }
    }

    // How far it lies from another. With `saturating_sub` in place of the second test, the search of blocks in no order takes a seventh longer.
    fn gap(self, k: usize, span: Span) -> u32
        requires { k < length self.firsts.now }
        ensures { result ≡ gap_to self.entry.firsts.now self.entry.lasts.now span.first span.last k }
    {
        let here = self.at(k);
        if here.last < span.first {
            span.first - here.last
        } else if span.last < here.first {
            here.first - span.last
        } else {
            0
        }
    }

    // The range that lies nearest to another, of all but the one at `but`.
    fn nearest(self, span: Span, but: usize) -> usize
        requires { 1 < length self.firsts.now }
        ensures { (result ≡ nearest_but self.entry.firsts.now self.entry.lasts.now span.first span.last but) × (result < length self.entry.firsts.now) }
    {
        let mut found = other_than(but);
        let mut least = self.gap(found, span);
        for k in 0..self.firsts.len() {
            let away = self.gap(k, span);
            if (away < least) & (k != but) {
                found = k;
                least = away;
            }
        }
        found
    }

    // The range that lies nearest to the one at `k`.
    fn beside(self, k: usize) -> usize
        requires { (1 < length self.firsts.now) × (k < length self.firsts.now) }
        ensures { (result ≡ beside_of self.entry.firsts.now self.entry.lasts.now k) × (result < length self.entry.firsts.now) }
    {
        self.nearest(self.at(k), k)
    }

    // How far away it lies.
    fn apart(self, k: usize) -> u32
        requires { (1 < length self.firsts.now) × (k < length self.firsts.now) }
        ensures { result ≡ apart_at self.entry.firsts.now self.entry.lasts.now k }
    {
        self.gap(self.beside(k), self.at(k))
    }

    // The range that has another nearest to it.
    fn closest(self) -> usize
        requires { 1 < length self.firsts.now }
        ensures { (result ≡ closest_of self.entry.firsts.now self.entry.lasts.now) × (result < length self.entry.firsts.now) }
    {
        let mut found = 0;
        let mut least = self.apart(0);
        for k in 0..self.firsts.len() {
            let away = self.apart(k);
            if away < least {
                found = k;
                least = away;
            }
        }
        found
    }
}

// That there are as many of both stands in three contracts: a struct of two `&mut` slices would have to promise besides that both stay the same, and as long.

// Widens the range at `k` so that it reaches over another.
fn widen(firsts: &mut [u32], lasts: &mut [u32], k: usize, span: Span)
    requires { (k < length firsts.old) × (length lasts.old ≡ length firsts.old) }
    ensures firsts { firsts.new ≡ reached firsts.old k span.first }
    ensures lasts { lasts.new ≡ stretched lasts.old k span.last }
{
    firsts[k] = firsts[k].min(span.first);
    lasts[k] = lasts[k].max(span.last);
}

// The ranges at `one` and `other` become one, and another takes the place of the second.
fn join(firsts: &mut [u32], lasts: &mut [u32], one: usize, other: usize, span: Span)
    requires { (one < length firsts.old) × (other < length firsts.old) × (length lasts.old ≡ length firsts.old) }
    ensures firsts { firsts.new ≡ firsts_joined firsts.old one other span.first }
    ensures lasts { lasts.new ≡ lasts_joined lasts.old one other span.last }
{
    let second = Held { firsts, lasts }.at(other);
    widen(firsts, lasts, one, second);
    firsts[other] = span.first;
    lasts[other] = span.last;
}

// Takes a range in among those covered: by the one nearest to it, where that is less far away than the range is long or no farther than
// any two are from one another; else in the place of one of these two, which become one.
pub fn take_in(firsts: &mut [u32], lasts: &mut [u32], span: Span)
    requires { (1 < length firsts.old) × (length lasts.old ≡ length firsts.old) × (span.first ≤ span.last) }
    ensures firsts { firsts.new ≡ firsts_with firsts.old lasts.old span.first span.last }
    ensures lasts { lasts.new ≡ lasts_with firsts.old lasts.old span.first span.last }
{
    let held = Held { firsts, lasts };
    let k = held.nearest(span, held.firsts.len());
    let away = held.gap(k, span);
    if away <= span.last - span.first {
        widen(firsts, lasts, k, span);
        return;
    }
    let one = held.closest();
    if away <= held.apart(one) {
        widen(firsts, lasts, k, span);
        return;
    }
    let other = held.beside(one);
    join(firsts, lasts, one, other, span);
}
