// Rule 13: no two kept sections share a load address.
ghost use Rattle.std.specs.Prelude.{◌≡◌, true};
ghost use Rattle.fields.specs.Counting.{joined};
ghost use Rattle.fields.specs.Rules.{Silent, ruling_of};
ghost use Rattle.fields.specs.Refusal.{told};
ghost use Rattle.coff.specs.File.{section_count};
ghost use Rattle.coff.specs.Headers.{section_at};
ghost use Rattle.coff.specs.Refusals.{share_load, overlap_rules};
ghost use Rattle.coff.specs.Marks.{is_marked};

use crate::Marks;
use crate::headers::Headers;
use crate::section::Header;
use fields::ends::Begin;
use fields::refusal::{Reason, Refusal};

// Their load ranges share an address.
fn meet(s: &Header<'_>, t: &Header<'_>) -> bool
    ensures { result ≡ share_load (section_at s.now) (section_at t.now) }
{
    let s_load = s.load();
    let t_load = t.load();
    let reaches = (s_load.0 as usize) < t_load.end(t.size());
    let reached = (t_load.0 as usize) < s_load.end(s.size());
    reaches & reached
}

// The index is that of the first kept section that meets a kept one before it; which are kept was noted already. One that is loaded where all before it have
// ended, or behind, meets none of them. That the outer loop is left by its label with the index is a form of this project (docs/FORMS.md).
fn all_pairs(headers: &Headers<'_>, kept: &Marks) -> Result<(), Refusal>
    ensures { told result ≡ ruling_of (joined (overlap_rules (is_marked kept.now) headers.now.file.now) (section_count headers.now.file.now)) }
{
    let count = headers.count;
    let mut top = 0;
    let mut i = 0;
    let found = 'pairs: loop {
        if count <= i {
            break 'pairs None;
        }
        if kept.has(i) {
            let later = headers.header(i);
            let load = later.load();
            let first = if top <= load.0 as usize { i } else { 0 };
            for j in first..i {
                if kept.has(j) & meet(&headers.header(j), &later) {
                    break 'pairs Some(i);
                }
            }
            top = top.max(load.end(later.size()));
        }
        i += 1;
    };
    match found {
        Some(index) => Err(Reason::SectionsMeet.at(index)),
        None => Ok(()),
    }
}

// Sections that rise need no comparing.
pub fn pairs(headers: &Headers<'_>, kept: &Marks, rise: bool) -> Result<(), Refusal>
    requires { rise ≡ true → Silent (joined (overlap_rules (is_marked kept.now) headers.now.file.now) (section_count headers.now.file.now)) }
    ensures { told result ≡ ruling_of (joined (overlap_rules (is_marked kept.now) headers.now.file.now) (section_count headers.now.file.now)) }
{
    if rise {
        return Ok(());
    }
    all_pairs(headers, kept)
}
