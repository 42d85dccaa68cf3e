// A pattern's stars, counted and looked for.
ghost use Rattle.std.specs.Prelude.{◌<◌, ◌≤◌, ◌≡◌, false, length, take, get_or};
ghost use Rattle.patterns.specs.Taking.{star};
ghost use Rattle.patterns.specs.Stars.{stars_in_front, has_star, first_place};

// How many stars stand in front: a row of them takes what one does.
pub fn stars_in_front(p: &[u8]) -> usize
    ensures { result ≡ stars_in_front p.now }
{
    p.iter().take_while(|b| **b == b'*').count()
}

// How many bytes stand before the first star, or how many there are where none is a star.
pub fn plain_in_front(p: &[u8]) -> usize
    ensures { (result ≤ length p.now) × (has_star (take result p.now) ≡ false) × (result < length p.now → get_or p.now result 0 ≡ star) }
{
    p.iter().take_while(|b| **b != b'*').count()
}

// The first of n characters from which the pattern is worth a try: without a star it can take only the last ones.
pub fn first_place(p: &[u8], n: usize) -> usize
    ensures { result ≡ first_place p.now n }
{
    if p.contains(&b'*') {
        0
    } else {
        n.saturating_sub(p.len())
    }
}
