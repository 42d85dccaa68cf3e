// An answer's numbers, packed into one number of 64 bits: the code in the lowest eight, and above it the index of a refusal or the figures of a success.
// One function for each kind of answer: all that they have in common is `refusal`, and the rest of each is which figures stand at which bits.
ghost use Rattle.std.specs.Prelude.{◌≡◌, cond};
ghost use Rattle.fields.specs.Refusal.{code_of, told};
ghost use Rattle.image.specs.Converting.{numbers_of_conversion};
ghost use Rattle.image.specs.Reading.{numbers_of_reading};
ghost use Rattle.image.specs.Asking.{numbers_of_asked};
ghost use Rattle.loader.specs.Loading.{numbers_of_loading};
ghost use Rattle.compare.specs.Checking.{numbers_of_verdict};
ghost use Rattle.lines.specs.Listing.{numbers_of_listing};
ghost use Rattle.scanboot.specs.Bounds.{SmallRefusal, SmallConversion, SmallReading, SmallAsked, SmallLoading, SmallVerdict, SmallListing};
ghost use Rattle.scanboot.specs.Packing.{packed_refusal, packed_conversion, packed_reading, packed_asked, packed_addresses, packed_loading, packed_verdict, packed_listing};

use fields::Part;
use fields::refusal::Refusal;
use image::{Contents, Figures};

// The lowest bits of the parts.
const BIT_8: u64 = 0x100;

const BIT_32: u64 = 0x1_0000_0000;

const BIT_36: u64 = 0x10_0000_0000;

const BIT_40: u64 = 0x100_0000_0000;

// In a function of its own, which the calls end in, the codes are a table; put into each call they would be a jump table with 31 ends there.
#[inline(never)]
fn refusal(r: Refusal) -> u64
    requires { SmallRefusal (code_of r.reason) r.index }
    ensures { result ≡ packed_refusal (code_of r.reason) r.index }
{
    r.reason.code() as u64 + BIT_8 * (r.index as u64)
}

// The image's length and the kept count.
pub fn conversion(answer: Result<Figures, Refusal>) -> u64
    requires { SmallConversion (told answer) }
    ensures { result ≡ packed_conversion (numbers_of_conversion (told answer)) }
{
    match answer {
        Ok(made) => BIT_8 * (made.length as u64) + BIT_40 * (made.kept as u64),
        Err(r) => refusal(r),
    }
}

// The entry point and the block count.
pub fn reading(answer: Result<Contents, Refusal>) -> u64
    requires { SmallReading (told answer) }
    ensures { result ≡ packed_reading (numbers_of_reading (told answer)) }
{
    match answer {
        Ok(image) => BIT_8 * (image.entry as u64) + BIT_40 * (image.blocks as u64),
        Err(r) => refusal(r),
    }
}

// Where a block's bytes begin, and how many there are.
pub fn asked(answer: Result<Part, Refusal>) -> u64
    requires { SmallAsked (told answer) }
    ensures { result ≡ packed_asked (numbers_of_asked (told answer)) }
{
    match answer {
        Ok(block) => BIT_8 * (block.raw.0 as u64) + BIT_36 * (block.size as u64),
        Err(r) => refusal(r),
    }
}

// The block's two addresses, which fill a number of their own.
pub fn addresses(answer: Result<Part, Refusal>) -> u64
    ensures { result ≡ packed_addresses (numbers_of_asked (told answer)) }
{
    match answer {
        Ok(block) => block.load.0 as u64 + BIT_32 * (block.run.0 as u64),
        Err(_) => 0,
    }
}

// The number of bytes placed.
pub fn loading(answer: Result<usize, Refusal>) -> u64
    requires { SmallLoading (told answer) }
    ensures { result ≡ packed_loading (numbers_of_loading (told answer)) }
{
    match answer {
        Ok(bytes) => BIT_8 * (bytes as u64),
        Err(r) => refusal(r),
    }
}

// A check has no figure.
pub fn verdict(answer: Result<(), Refusal>) -> u64
    requires { SmallVerdict (told answer) }
    ensures { result ≡ packed_verdict (numbers_of_verdict (told answer)) }
{
    match answer {
        Ok(()) => 0,
        Err(r) => refusal(r),
    }
}

// The text's length.
pub fn listing(answer: Result<usize, Refusal>) -> u64
    requires { SmallListing (told answer) }
    ensures { result ≡ packed_listing (numbers_of_listing (told answer)) }
{
    match answer {
        Ok(length) => BIT_8 * (length as u64),
        Err(r) => refusal(r),
    }
}

// Whether a name is taken has no code: 1 or 0.
pub fn taken(takes: bool) -> u32
    ensures { result ≡ cond takes 1 0 }
{
    takes as u32
}
