// A piece of a pattern between two stars, and where it stands in a name.
ghost use Rattle.std.specs.Prelude.{ℕ, ◌<◌, ◌≤◌, ◌≡◌, true, false, [], ◌∷◌, ◌++◌, length, drop, MatchOption};
ghost use Rattle.patterns.specs.Taking.{star, takes};
ghost use Rattle.patterns.specs.Stars.{has_star};

use crate::byte::suits;

// Whether the name begins with the piece: it does where the piece, with a star behind it, takes the name.
fn fits(piece: &[u8], name: &[u8]) -> bool
    requires { (has_star piece.now ≡ false) × (length piece.now ≤ length name.now) }
    ensures { result ≡ takes (piece.now ++ (star ∷ [])) name.now }
{
    // The name is cut to as many characters as the piece has bytes: then one count tells the end of both, and each turn takes half the time.
    piece
        .iter()
        .zip(&name[..piece.len()])
        .all(|(wanted, character)| suits(*wanted, *character))
}

// The first place at which the piece stands. An empty piece stands everywhere, and so at 0.
pub fn place_of(piece: &[u8], name: &[u8]) -> Option<usize>
    requires { has_star piece.now ≡ false }
    ensures { MatchOption result ((k : ℕ) → takes (piece.now ++ (star ∷ [])) (drop k name.now) ≡ false) (λ at. (at ≤ length name.now) × ((k : ℕ) → k < at → takes (piece.now ++ (star ∷ [])) (drop k name.now) ≡ false) × (takes (piece.now ++ (star ∷ [])) (drop at name.now) ≡ true)) }
{
    let places = (name.len() + 1).saturating_sub(piece.len());
    (0..places).find(|&at| fits(piece, &name[at..]))
}
