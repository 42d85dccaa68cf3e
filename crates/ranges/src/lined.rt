// Ranges that stand one behind the other in bytes, all of a row.
ghost use Rattle.std.specs.Prelude.{◌≤◌};
ghost use Rattle.ranges.specs.Row.{Lined};

use crate::row::{Cursor, Range, Row, range_at};

// So many ranges of a row: the first begins at `at` in the bytes.
#[derive(Clone, Copy)]
pub struct Ranges<'a> {
    pub bytes: &'a [u8],
    pub row: Row,
    pub at: usize,
    pub count: usize,
    pub ghost lined: { Lined row bytes.now at count },
}

impl<'a> Ranges<'a> {
    ghost use Rattle.ranges.specs.Steps.{Ready, RangeOf, Fewer};

    // The range at a cursor, which is the one of its number. Walks go from cursor to cursor, and not by an iterator: three of five stop at a range or go on
    // behind one later, and for the other two its type and what it promises would be more than it saves.
    pub(crate) fn range_at(self, c: Cursor) -> Range
        requires { Ready self c }
        ensures { RangeOf self.entry c.number result }
    {
        range_at(self.bytes, self.row, c)
    }

    // The first of them, so many as are told.
    pub(crate) fn front(self, count: usize) -> Ranges<'a>
        requires { count ≤ self.count }
        ensures { Fewer self.entry count result }
    {
        Ranges {
            count,
            bytes: self.bytes,
            row: self.row,
            at: self.at,
        }
    }
}
