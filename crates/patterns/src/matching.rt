// Whether a pattern takes a name. A pattern of m bytes and a name of n cost at most some m times n steps. Calls of the two steps nest at most three
// deep, whatever the pattern is: the pieces between stars are found in a loop.
ghost use Rattle.std.specs.Prelude.{◌≡◌, ◌∷◌};
ghost use Rattle.patterns.specs.Taking.{star, takes, takes_alone};
ghost use Rattle.patterns.specs.Steps.{Matches, Tries};

use crate::Match;
use crate::byte::suits;
use crate::length::is_no_length;
use crate::pieces::place_of;
use crate::stars::{first_place, plain_in_front, stars_in_front};

// Bytes that take one character each, up to the first row of stars, which is handed the rest of both.
#[cycle(steps)]
fn literal_step(p: &[u8], name: &[u8]) -> Match
    ensures { Matches p.now name.now result }
{
    for (i, wanted) in p.iter().enumerate() {
        if *wanted == b'*' {
            let rest = i + stars_in_front(&p[i..]);
            return star_step(&p[rest..], &name[i..]);
        }
        // Fewer characters will not do where all of them are too few.
        let Some(character) = name.get(i) else {
            return Match::Never;
        };
        if !suits(*wanted, *character) {
            return Match::NotHere;
        }
    }
    if p.len() < name.len() {
        return Match::NotHere;
    }
    Match::Taken
}

// What follows a star is taken piece by piece, each from the first place at which it stands: a later one would leave the next star less to take. What
// follows the last star can only be the name's last characters.
#[cycle(steps)]
fn star_step(p: &[u8], name: &[u8]) -> Match
    ensures { Tries (star ∷ p.now) name.now result }
{
    let mut left = p;
    let mut rest = name;
    loop {
        let size = plain_in_front(left);
        let (piece, behind) = left.split_at(size);
        if behind.is_empty() {
            let at = first_place(left, rest.len());
            return match literal_step(left, &rest[at..]) {
                Match::Taken => Match::Taken,
                Match::NotHere | Match::Never => Match::Never,
            };
        }
        let Some(at) = place_of(piece, rest) else {
            return Match::Never;
        };
        rest = &rest[at + size..];
        left = &behind[stars_in_front(behind)..];
    }
}

pub fn takes(p: &[u8], name: &[u8]) -> bool
    ensures { result ≡ takes p.now name.now }
{
    matches!(literal_step(p, name), Match::Taken)
}

// One pattern by itself, which may be none that a call accepts.
pub fn takes_alone(p: &[u8], name: &[u8]) -> bool
    ensures { result ≡ takes_alone p.now name.now }
{
    !is_no_length(p.len()) && takes(p, name)
}
