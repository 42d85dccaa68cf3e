// Little-endian numbers of 16 and 32 bits at a place in a slice.
ghost use Rattle.std.specs.Prelude.{◌≡◌, ◌+◌, ◌≤◌, length};
ghost use Rattle.fields.specs.Number.{u16_at, u32_at, le16, le32};
ghost use Rattle.fields.specs.Patch.{patch};

// The number that stands in the two bytes at `at`.
pub fn u16_at(s: &[u8], at: usize) -> u32
    requires { at + 2 ≤ length s.now }
    ensures { result ≡ u16_at s.now at }
{
    u16::from_le_bytes([s[at], s[at + 1]]) as u32
}

// The number that stands in the four bytes at `at`. The four are one load; a part of four bytes that is copied out costs a compare and a branch besides.
pub fn u32_at(s: &[u8], at: usize) -> u32
    requires { at + 4 ≤ length s.now }
    ensures { result ≡ u32_at s.now at }
{
    u32::from_le_bytes([s[at], s[at + 1], s[at + 2], s[at + 3]])
}

// Writes the two bytes of `n` at `at`.
pub fn put_u16(s: &mut [u8], at: usize, n: u16)
    requires { at + 2 ≤ length s.old }
    ensures { s.new ≡ patch s.old at (le16 n) }
{
    s[at..at + 2].copy_from_slice(&n.to_le_bytes());
}

// Writes the four bytes of `n` at `at`.
pub fn put_u32(s: &mut [u8], at: usize, n: u32)
    requires { at + 4 ≤ length s.old }
    ensures { s.new ≡ patch s.old at (le32 n) }
{
    s[at..at + 4].copy_from_slice(&n.to_le_bytes());
}
