// Bytes put into a lent buffer, and whether two short rows are the same.
ghost use Rattle.std.specs.Prelude.{◌≡◌, ◌≤◌, length};
ghost use Rattle.fields.specs.Equal.{same_bytes};
ghost use Rattle.fields.specs.Patch.{patch};

// Copies `from` over the front of `to`, which is at least as long; what lies behind stays.
// The library's `copy_from_slice` misses a bar: it calls memmove, and the archive takes nothing of the C library. Of this loop the compiler makes vector code.
pub fn copy_front(to: &mut [u8], from: &[u8])
    requires { length from.now ≤ length to.old }
    ensures { to.new ≡ patch to.old 0 from.now }
{
    for i in 0..from.len() {
        to[i] = from[i];
    }
}

// As many bytes in both, and each the same: the library's `==`, with the promise by a definition of these pages.
pub fn same(x: &[u8], y: &[u8]) -> bool
    ensures { result ≡ same_bytes x.now y.now }
{
    x == y
}
