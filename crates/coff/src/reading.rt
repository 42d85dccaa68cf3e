// A whole file: its sections, or why it is refused.
ghost use Rattle.std.specs.Prelude.{◌≡◌, IfOk};
ghost use Rattle.fields.specs.Rules.{Silent};
ghost use Rattle.fields.specs.Refusal.{told_by};
ghost use Rattle.patterns.specs.Row.{options_of};
ghost use Rattle.coff.specs.File.{headers_begin, entry_point};
ghost use Rattle.coff.specs.Refusals.{head_rules};
ghost use Rattle.coff.specs.Answer.{headers_in, headers_of, headers_numbers, numbers_of_headers};

use crate::choosing::{ByHeader, ByName, Chooser};
use crate::header::{has_optional, head_rules};
use crate::headers::Headers;
use crate::parts::Coff;
use crate::ranges::Noted;
use crate::{Sections, overlap};
use fields::number::{u16_at, u32_at};
use fields::refusal::Refusal;

// The entry point. Without an optional header, which would stand before the section headers, these begin at 22.
fn entry(headers: &Headers<'_>) -> u32
    requires { Silent (head_rules headers.now.file.now) }
    ensures { result ≡ entry_point headers.now.file.now }
{
    if headers.at == 22 {
        return 0;
    }
    u32_at(headers.file, 38)
}

// Rules 1 to 13, and 16 where there are patterns, by what decides which sections are kept. The section headers begin at `at` if rules 1 to 9 let the file through.
fn chosen<'a, C: Chooser>(f: &'a [u8], at: usize, chooser: &C) -> Result<Coff<'a>, Refusal>
    requires { Silent (head_rules f.now) → headers_begin f.now ≡ at }
    ensures answers { told_by headers_in result ≡ headers_of (C.options chooser.now) f.now }
    ensures file { IfOk result (λ file. file.bytes.now ≡ f.now) }
{
    head_rules(f)?;
    let count = u16_at(f, 2) as usize;
    let headers = Headers { file: f, at, count };
    let mut noted = Noted::nothing();
    noted.note_all(&headers, chooser)?;
    overlap::pairs(&headers, &noted.kept, noted.rise)?;
    Ok(Coff {
        bytes: f,
        sections: Sections {
            at,
            count,
            kept: noted.kept,
        },
        entry: entry(&headers),
    })
}

// Rules 1 to 13, and 16 where there are patterns, for every row of bytes. Whether there are too many patterns, or one that is none, is not asked here.
// Each of the two ways to choose is taken from two places, one for each place where section headers can begin: what is called from one place the compiler
// puts into its caller, and then a call without patterns would need the stack that names need (docs/DECISIONS.md, 96). This function itself goes into each
// caller: in a frame of its own its answer would stand twice on the stack.
#[inline(always)]
pub fn read<'a>(f: &'a [u8], patterns: &[u8]) -> Result<Coff<'a>, Refusal>
    ensures answers { told_by headers_in result ≡ headers_of (options_of patterns.now) f.now }
    ensures numbers { numbers_of_headers (told_by headers_in result) ≡ headers_numbers (options_of patterns.now) f.now }
    ensures file { IfOk result (λ file. file.bytes.now ≡ f.now) }
{
    let optional = has_optional(f);
    if patterns.is_empty() {
        if optional {
            return chosen(f, 50, &ByHeader);
        }
        return chosen(f, 22, &ByHeader);
    }
    if optional {
        return chosen(f, 50, &ByName { patterns });
    }
    chosen(f, 22, &ByName { patterns })
}
