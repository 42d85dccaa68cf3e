// One byte of a pattern that is no star.
ghost use Rattle.std.specs.Prelude.{◌≡◌, ◌||◌, eqb};
ghost use Rattle.patterns.specs.Taking.{question};

// Whether it takes the character.
pub fn suits(wanted: u8, character: u8) -> bool
    ensures { result ≡ (eqb wanted question || eqb wanted character) }
{
    wanted == b'?' || wanted == character
}
