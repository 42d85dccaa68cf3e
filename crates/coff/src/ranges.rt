// Rules 16 and 10 to 12, section by section.
ghost use Rattle.std.specs.Prelude.{◌≡◌, ℕ, ◌<◌, List, IfOk};
ghost use Rattle.fields.specs.Counting.{joined};
ghost use Rattle.fields.specs.Options.{Options};
ghost use Rattle.fields.specs.Rules.{ruling_of};
ghost use Rattle.fields.specs.Refusal.{told};
ghost use Rattle.coff.specs.File.{section_count, section_of};
ghost use Rattle.coff.specs.Refusals.{kept_rules, rules_of};
ghost use Rattle.coff.specs.Steps.{NotedTo};

use crate::Marks;
use crate::choosing::Chooser;
use crate::headers::Headers;
use fields::ends::Begin;
use fields::refusal::{Reason, Refusal};

// Rules 10 to 12, of section `i`, which is kept.
fn one_section(headers: &Headers<'_>, i: usize) -> Result<(), Refusal>
    requires { i < headers.now.count }
    ensures { told result ≡ ruling_of (kept_rules headers.now.file.now (section_of headers.now.file.now i) i) }
{
    let header = headers.header(i);
    let raw = header.raw();
    let size = header.size();
    if (raw.0 as usize) < headers.at + 48 * headers.count {
        return Err(Reason::RawData.at(i));
    }
    if headers.file.len() < raw.end(size) {
        return Err(Reason::RawData.at(i));
    }
    if 4294967296 < header.load().end(size) {
        return Err(Reason::SectionLoad.at(i));
    }
    if 4294967296 < header.run().end(size) {
        return Err(Reason::SectionRun.at(i));
    }
    Ok(())
}

// What is noted of the kept sections as all are judged: which they are, and whether they rise: each is loaded behind all before it.
#[derive(Clone, Copy)]
pub struct Noted {
    pub kept: Marks,
    pub rise: bool,
}

impl Noted {
    // Nothing yet, of whatever file.
    pub fn nothing() -> Self
        ensures { (o : Options) (f : List ℕ) → NotedTo o f 0 result 0 }
    {
        Noted {
            kept: Marks::none(),
            rise: true,
        }
    }

    // What there is to note of all sections, or the first refusal: the rules of a section come before those of the next. The marks are made where they stay,
    // since a copy of them would be as much stack again; what else is noted stands apart from them till the end, so that the loop has it in registers.
    pub fn note_all<C: Chooser>(
        &mut self,
        headers: &Headers<'_>,
        chooser: &C,
    ) -> Result<(), Refusal>
        requires { NotedTo (C.options chooser.now) headers.now.file.now 0 self.old 0 }
        ensures answers { told result ≡ ruling_of (joined (rules_of (C.options chooser.now) headers.now.file.now) (section_count headers.now.file.now)) }
        ensures notes { IfOk result (λ passed. (top : ℕ) × NotedTo (C.options chooser.now) headers.now.file.now (section_count headers.now.file.now) self.new top) }
    {
        let mut top = 0;
        let mut rise = true;
        for i in 0..headers.count {
            if chooser.keeps(headers, i)? {
                one_section(headers, i)?;
                let header = headers.header(i);
                let load = header.load();
                rise = rise & (top <= load.0 as usize);
                top = top.max(load.end(header.size()));
                self.kept.mark(i);
            }
        }
        self.rise = rise;
        Ok(())
    }
}
