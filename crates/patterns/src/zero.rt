// The zero byte that ends a name or a pattern.
ghost use Rattle.std.specs.Prelude.{◌≡◌, length};
ghost use Rattle.patterns.specs.Zero.{up_to_zero};

// How many bytes stand before the first zero byte, or how many there are where none is zero.
pub fn before_zero(s: &[u8]) -> usize
    ensures { result ≡ length (up_to_zero s.now) }
{
    s.iter().take_while(|b| **b != 0).count()
}
