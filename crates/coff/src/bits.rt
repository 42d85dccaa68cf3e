// Marks: which sections are kept, noted once and looked up by number.
ghost use Rattle.std.specs.Prelude.{◌≡◌, ◌<◌, ◌/◌, ◌%◌, ◌^◌};

use crate::Marks;

impl Marks {
    ghost use Rattle.coff.specs.Marks.{word_of, is_marked, with_mark, no_marks};

    pub(crate) fn none() -> Self
        ensures { result ≡ no_marks }
    {
        Marks { words: [0; 4] }
    }

    // The word of section `i`. The words' numbers stand in the code, that of most files first: so the words, and each copy of a file that has them, need not lie
    // in memory. A counted number would be shorter; with it `scanboot_convert` takes 472 bytes of stack, and a section 2 ns more.
    fn word(&self, i: usize) -> u64
        requires { i < 256 }
        ensures { result ≡ word_of self.now (i / 64) }
    {
        if i < 64 {
            return self.words[0];
        }
        if i < 128 {
            return self.words[1];
        }
        if i < 192 {
            return self.words[2];
        }
        self.words[3]
    }

    pub(crate) fn has(&self, i: usize) -> bool
        requires { i < 256 }
        ensures { result ≡ is_marked self.now i }
    {
        (self.word(i) >> (i % 64)) % 2 == 1
    }

    // One more, of a section behind all that are marked.
    pub(crate) fn mark(&mut self, i: usize)
        requires { (i < 256) × (word_of self.old (i / 64) < 2 ^ (i % 64)) }
        ensures { self.new ≡ with_mark self.old i }
    {
        self.words[i / 64] += 1u64 << (i % 64);
    }
}
