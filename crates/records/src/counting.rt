// Rule 32: how many records a table has, where all are sound.
ghost use Rattle.std.specs.Prelude.{◌≡◌, ◌≤◌, length, take};
ghost use Rattle.fields.specs.Turning.{turned_if};
ghost use Rattle.records.specs.Counting.{counted_of};

use fields::LoadAddress;
use fields::ends::Begin;
use ranges::row::{Kind, Row, number_at, room};

// Of a table of `size` bytes, which are the first of `t` after undoing; behind them may stand their padding. None where a record is unsound.
pub fn count(t: &[u8], size: usize, turned: bool) -> Option<usize>
    requires { (size ≤ length t.now) × (length t.now ≤ 16777216) }
    ensures { result ≡ counted_of (take size (turned_if turned t.now)) }
{
    let row = Row {
        kind: Kind::Records,
        turned,
    };
    let mut at = 0;
    let mut records = 0;
    loop {
        if size < at + 4 {
            return None;
        }
        let left = size - at;
        let n = number_at(t, row, at);
        if n == 0 {
            return Some(records);
        }
        if left < 8 + n as usize {
            return None;
        }
        let load = LoadAddress(number_at(t, row, at + 4));
        if 4294967296 < load.end(n) {
            return None;
        }
        at += room(row, n);
        records += 1;
    }
}
