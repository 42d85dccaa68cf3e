// The row of bytes in which patterns are lent: each ends with a zero byte or with the row.
ghost use Rattle.std.specs.Prelude.{◌≡◌};
ghost use Rattle.fields.specs.Options.{are_refused};
ghost use Rattle.patterns.specs.Taking.{takes_any};
ghost use Rattle.patterns.specs.Row.{patterns_in};

use crate::length::is_no_length;
use crate::matching::takes;
use crate::zero::before_zero;

// The patterns of a row from a place on, one after the other.
#[derive(Drop)]
struct Patterns<'a> {
    row: &'a [u8],
    at: usize,
}

impl<'a> Iterator for Patterns<'a> {
    ghost use Rattle.std.specs.Prelude.{drop};
    ghost use Rattle.std.specs.Iterator.{YieldsFirstBy, item_count};
    ghost use Rattle.patterns.specs.Row.{patterns_in};

    type Item = &'a [u8];

    ghost next_gives = { YieldsFirstBy (λ p. p.now) (λ s. patterns_in (drop s.at s.row.now)) };

    ghost remaining = { item_count (λ s. patterns_in (drop s.at s.row.now)) };

    // It ends one place past the row where no zero byte ends the last pattern. A row that each step cuts shorter is slower (docs/DECISIONS.md, 138).
    fn next(&mut self) -> Option<&'a [u8]> {
        let at = self.at;
        if self.row.len() <= at {
            return None;
        }
        let end = at + before_zero(&self.row[at..]);
        self.at = end + 1;
        Some(&self.row[at..end])
    }
}

// Rule 17: more than 16 patterns, or one that has not 1 to 64 bytes. Of a seventeenth it is asked only whether it begins, so that what refuses a row takes no
// more time however long that one is.
pub fn are_refused(row: &[u8]) -> bool
    ensures { result ≡ are_refused (patterns_in row.now) }
{
    let mut patterns = Patterns { row, at: 0 };
    // No row has more patterns than bytes. A bound that is a number alone the compiler writes out sixteen times, which is slower.
    for _ in 0..row.len().min(16) {
        match patterns.next() {
            Some(pattern) if is_no_length(pattern.len()) => return true,
            Some(_) => {}
            None => return false,
        }
    }
    patterns.at < patterns.row.len()
}

// One of the patterns takes the name.
pub fn takes_any(row: &[u8], name: &[u8]) -> bool
    ensures { result ≡ takes_any (patterns_in row.now) name.now }
{
    Patterns { row, at: 0 }.any(|pattern| takes(pattern, name))
}
