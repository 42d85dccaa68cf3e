// How long a pattern may be.
ghost use Rattle.std.specs.Prelude.{◌≡◌};
ghost use Rattle.fields.specs.Options.{is_no_length};

// None of 1 to 64.
pub fn is_no_length(size: usize) -> bool
    ensures { result ≡ is_no_length size }
{
    !(1..=64).contains(&size)
}
