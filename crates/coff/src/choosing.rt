// Which sections are kept, decided here, once: by the numbers in their headers, and where patterns are asked for by name.
ghost use Rattle.std.specs.Prelude.{◌≡◌, ◌<◌, length};
ghost use Rattle.fields.specs.Options.{Options, plain};
ghost use Rattle.patterns.specs.Row.{options_of};
ghost use Rattle.coff.specs.Steps.{Chosen};

use crate::headers::Headers;
use crate::names::name_at;
use fields::refusal::Reason;
use patterns::row::takes_any;

// What decides whether a section is kept, by the options that it stands for.
pub trait Chooser {
    ghost options: { Self → Options };

    // Whether section `i` is kept; rule 16 where its name is wanted and cannot be read.
    fn keeps(&self, headers: &Headers<'_>, i: usize) -> Result<bool, Reason>
        requires { i < headers.now.count }
        ensures { Chosen (options self.now) headers.now.file.now i result };
}

// Without patterns the numbers in its header decide alone, and no name is looked at.
#[derive(Clone, Copy)]
pub struct ByHeader;

impl Chooser for ByHeader {
    ghost options = { λ _. plain };

    fn keeps(&self, headers: &Headers<'_>, i: usize) -> Result<bool, Reason> {
        Ok(headers.header(i).is_kept())
    }
}

// Where there are patterns, none of them may take its name.
#[derive(Clone, Copy)]
pub struct ByName<'a> {
    pub patterns: &'a [u8],
    ghost some: { 0 < length patterns.now },
}

impl<'a> Chooser for ByName<'a> {
    ghost options = { λ c. options_of c.patterns.now };

    fn keeps(&self, headers: &Headers<'_>, i: usize) -> Result<bool, Reason> {
        let header = headers.header(i);
        if !header.is_kept() {
            return Ok(false);
        }
        let name = name_at(&header).ok_or(Reason::SectionName)?;
        Ok(!takes_any(self.patterns, name))
    }
}
