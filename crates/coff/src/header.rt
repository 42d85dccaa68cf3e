// Rules 1 to 9: the file as a whole.
ghost use Rattle.std.specs.Prelude.{◌≡◌, cond, ◌≤◌, length, take, drop};
ghost use Rattle.fields.specs.Rules.{Silent, ruling_of};
ghost use Rattle.fields.specs.Refusal.{told_whole};
ghost use Rattle.coff.specs.File.{headers_begin};
ghost use Rattle.coff.specs.Refusals.{head_rules};

use fields::number::u16_at;
use fields::refusal::Reason;

// Rules 1 to 6, of the 22 bytes of the file header.
fn first_rules(f: &[u8]) -> Result<(), Reason>
    ensures { told_whole result ≡ ruling_of (take 6 (head_rules f.now)) }
{
    if 16777216 < f.len() {
        return Err(Reason::FileTooLong);
    }
    if f.len() < 22 {
        return Err(Reason::FileTooShort);
    }
    if u16_at(f, 0) != 0xC2 {
        return Err(Reason::FileVersion);
    }
    if u16_at(f, 20) != 0x99 {
        return Err(Reason::Target);
    }
    let optional = u16_at(f, 16);
    let odd = !((optional == 0) | (optional == 28));
    if odd {
        return Err(Reason::OptionalSize);
    }
    if u16_at(f, 18) / 0x2 % 2 != 1 {
        return Err(Reason::Unresolved);
    }
    Ok(())
}

// Rules 7 to 9, of the headers that follow it.
fn next_rules(f: &[u8]) -> Result<(), Reason>
    requires { 22 ≤ length f.now }
    ensures { told_whole result ≡ ruling_of (drop 6 (head_rules f.now)) }
{
    let count = u16_at(f, 2);
    if 256 < count {
        return Err(Reason::TooManySections);
    }
    let optional = u16_at(f, 16);
    let end = 22 + optional as usize + 48 * count as usize;
    if f.len() < end {
        return Err(Reason::HeadersCut);
    }
    if optional == 28 {
        if u16_at(f, 22) != 0x108 {
            return Err(Reason::Magic);
        }
    }
    Ok(())
}

// All nine.
pub fn head_rules(f: &[u8]) -> Result<(), Reason>
    ensures { told_whole result ≡ ruling_of (head_rules f.now) }
{
    first_rules(f)?;
    next_rules(f)
}

// Whether an optional header follows the file header, of a file that these rules do not refuse. Its size is then 0 or 28, so that the lower byte tells.
pub fn has_optional(f: &[u8]) -> bool
    ensures { Silent (head_rules f.now) → headers_begin f.now ≡ cond result 50 22 }
{
    if f.len() < 22 {
        return false;
    }
    f[16] != 0
}
