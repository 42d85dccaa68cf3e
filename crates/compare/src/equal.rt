// Whether two rows of bytes are equal, of which one may be a data area in any order. None of the loops stops at a difference: so the compiler makes vector code of them.
ghost use Rattle.std.specs.Prelude.{◌≡◌, ◌+◌, ◌*◌, ◌/◌, ◌≤◌, length, take, drop};
ghost use Rattle.fields.specs.Turning.{turned};
ghost use Rattle.image.specs.Order.{area_in};
ghost use Rattle.compare.specs.Matching.{equal_bytes};

use fields::turning::turned_place;
use image::order::turns_data;

// As many in both, as they stand. The library's `==` misses a bar: for rows of 1 to 4 KiB it takes a fifth more time.
fn equal(x: &[u8], y: &[u8]) -> bool
    requires { length x.now ≡ length y.now }
    ensures { result ≡ equal_bytes x.now y.now }
{
    let mut same = true;
    for (a, b) in x.iter().zip(y) {
        same &= *a == *b;
    }
    same
}

// Whole fours, as many in both, those of `y` reversed.
fn equal_fours(x: &[u8], y: &[u8]) -> bool
    requires { (length x.now ≡ length y.now) × (length x.now ≡ 4 * (length x.now / 4)) }
    ensures { result ≡ equal_bytes x.now (turned y.now) }
{
    let (xs, _) = x.as_chunks::<4>();
    let (ys, _) = y.as_chunks::<4>();
    let mut same = true;
    for (a, b) in xs.iter().zip(ys) {
        same &= u32::from_le_bytes(*a) == u32::from_be_bytes(*b);
    }
    same
}

// Byte by byte: `x`, and what stands from `from` on in an area that is reversed.
fn equal_singly(x: &[u8], area: &[u8], from: usize) -> bool
    requires { (length area.now ≡ 4 * (length area.now / 4)) × (from + length x.now ≤ length area.now) }
    ensures { result ≡ equal_bytes x.now (take (length x.now) (drop from (turned area.now))) }
{
    let mut same = true;
    for i in 0..x.len() {
        same &= x[i] == area[turned_place(from + i)];
    }
    same
}

// The same, with whole fours at once: up to the first of them, these, and what is left.
fn equal_turned(x: &[u8], area: &[u8], from: usize) -> bool
    requires { (length area.now ≡ 4 * (length area.now / 4)) × (from + length x.now ≤ length area.now) }
    ensures { result ≡ equal_bytes x.now (take (length x.now) (drop from (turned area.now))) }
{
    let n = x.len();
    let head = n.min((4 - from % 4) % 4);
    let mid = head + 4 * ((n - head) / 4);
    let begin = from + head;
    let end = from + mid;
    let before = equal_singly(&x[..head], area, from);
    let fours = equal_fours(&x[head..mid], &area[begin..end]);
    let behind = equal_singly(&x[mid..], area, end);
    before & fours & behind
}

// `x`, and what stands from `from` on in a data area after undoing.
pub fn equal_in(x: &[u8], area: &[u8], from: usize, order: u32) -> bool
    requires { (length area.now ≡ 4 * (length area.now / 4)) × (from + length x.now ≤ length area.now) }
    ensures { result ≡ equal_bytes x.now (take (length x.now) (drop from (area_in order area.now))) }
{
    if turns_data(order) {
        return equal_turned(x, area, from);
    }
    let to = from + x.len();
    equal(x, &area[from..to])
}
