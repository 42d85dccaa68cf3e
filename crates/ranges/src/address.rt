// The addresses of a range, of 32 bits each: its first and its last.
ghost use Rattle.std.specs.Prelude.{◌≡◌, ◌+◌, ◌^◌, ◌<◌, ◌≤◌};

use fields::LoadAddress;
use fields::ends::Begin;

// From which address a range reaches to which.
#[derive(Clone, Copy, Debug, Default, PartialEq, Eq)]
pub struct Span {
    pub first: u32,
    pub last: u32,
}

// The last address that bytes are loaded to, which fits 32 bits where the end of the range may not.
pub fn last_address(load: LoadAddress, size: u32) -> u32
    requires { (0 < size) × (load.0 + size ≤ 2 ^ 32) }
    ensures { result + 1 ≡ load.0 + size }
{
    (load.end(size) - 1) as u32
}
