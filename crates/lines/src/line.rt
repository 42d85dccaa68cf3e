// The lines of a listing.
ghost use Rattle.std.specs.Prelude.{◌+◌, ◌≤◌, length};
ghost use Rattle.fields.specs.Refusal.{code_of};
ghost use Rattle.lines.specs.Text.{head_line, section_line, image_line, refusal_line};
ghost use Rattle.lines.specs.Put.{Puts};

use crate::piece::Text;
use fields::Part;
use fields::refusal::Refusal;

impl Text<'_> {
    #[tactic(auto, using(crate::proofs::LineLaws::length_head, crate::proofs::DigitLaws::length_hex))]
    pub fn head(&mut self, sections: usize, kept: usize, entry: u32)
        requires { self.old.end + length (head_line sections kept entry) ≤ length self.old.bytes.now }
        ensures { Puts self.old (head_line sections kept entry) self.new }
    {
        self.word(b"coff sections ");
        self.decimal(sections);
        self.word(b" kept ");
        self.decimal(kept);
        self.word(b" entry ");
        self.hex(entry);
        self.word(b"\n");
    }

    #[tactic(auto, using(crate::proofs::LineLaws::length_section, crate::proofs::DigitLaws::length_hex))]
    pub fn section(&mut self, index: usize, part: Part)
        requires { self.old.end + length (section_line index part.load.0 part.run.0 part.size) ≤ length self.old.bytes.now }
        ensures { Puts self.old (section_line index part.load.0 part.run.0 part.size) self.new }
    {
        self.decimal(index);
        self.word(b" load ");
        self.hex(part.load.0);
        self.word(b" run ");
        self.hex(part.run.0);
        self.word(b" size ");
        self.decimal(part.size as usize);
        self.word(b"\n");
    }

    #[tactic(auto, using(crate::proofs::LineLaws::length_image_line, crate::proofs::DigitLaws::length_hex))]
    pub fn image(&mut self, n: usize)
        requires { self.old.end + length (image_line n) ≤ length self.old.bytes.now }
        ensures { Puts self.old (image_line n) self.new }
    {
        self.word(b"image ");
        self.decimal(n);
        self.word(b"\n");
    }

    #[tactic(auto, using(crate::proofs::LineLaws::length_decimal_few, crate::proofs::DigitLaws::length_hex))]
    pub fn refusal(&mut self, refusal: Refusal)
        requires { self.old.end + 50 ≤ length self.old.bytes.now }
        ensures { Puts self.old (refusal_line (code_of refusal.reason) refusal.index) self.new }
    {
        self.word(b"refused ");
        self.decimal(refusal.reason.code() as usize);
        self.word(b" ");
        self.decimal(refusal.index);
        self.word(b"\n");
    }
}
