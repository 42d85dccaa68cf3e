// What the listing program prints of what it has read.
ghost use Rattle.std.specs.Prelude.{◌≡◌, ◌≤◌, length, take};
ghost use Rattle.fields.specs.Patch.{patch};
ghost use Rattle.fields.specs.Refusal.{code_of};
ghost use Rattle.lines.specs.Text.{refusal_line, listing_of};
ghost use Rattle.lines.specs.Output.{printed_of};
ghost use Rattle.lines.specs.Put.{Prints};

use crate::listing::list;
use crate::piece::Text;
use fields::refusal::Refusal;

// Where a text goes: standard output or standard error.
#[derive(Clone, Copy, Debug, PartialEq, Eq)]
pub enum Stream {
    Output,
    Error,
}

// The stream that the text goes to, and how long the text is.
#[derive(Clone, Copy, Debug, PartialEq, Eq)]
pub struct Output {
    pub stream: Stream,
    pub length: usize,
}

// A word alone, at the start.
fn put_word(bytes: &mut [u8], stream: Stream, word: &[u8]) -> Output
    requires { length word.now ≤ length bytes.old }
    ensures { Prints (record { stream = stream; text = word.now }) bytes.old result.stream result.length bytes.new }
{
    let mut text = Text::new(bytes);
    text.word(word);
    Output {
        stream,
        length: text.end,
    }
}

// The line of a refusal, at the start; answered is how long it is.
fn put_refusal(bytes: &mut [u8], refusal: Refusal) -> usize
    requires { 50 ≤ length bytes.old }
    ensures length { result ≡ length (refusal_line (code_of refusal.reason) refusal.index) }
    ensures line { bytes.new ≡ patch bytes.old 0 (refusal_line (code_of refusal.reason) refusal.index) }
{
    let mut text = Text::new(bytes);
    text.refusal(refusal);
    text.end
}

// The listing of a file, or the line of its refusal, at the start; answered is how long it is.
fn put_listing(text: &mut [u8], f: &[u8]) -> usize
    requires { 16384 ≤ length text.old }
    ensures length { result ≡ length (listing_of f.now) }
    ensures line { text.new ≡ patch text.old 0 (listing_of f.now) }
{
    match list(f, text) {
        Ok(length) => length,
        Err(refusal) => put_refusal(text, refusal),
    }
}

// Puts the text at the start of `text`: of the first `got` bytes of a buffer that holds 65,536, and
// of how many bytes one more read brought, if it did not fail.
pub fn put_output(text: &mut [u8], input: &[u8], got: usize, more: Option<usize>) -> Output
    requires { (16384 ≤ length text.old) × (length input.now ≡ 65536) × (got ≤ 65536) }
    ensures { Prints (printed_of (take got input.now) more) text.old result.stream result.length text.new }
{
    match more {
        Some(0) => Output {
            stream: Stream::Output,
            length: put_listing(text, &input[..got]),
        },
        Some(_) if got == 65536 => put_word(text, Stream::Output, b"input over 65536\n"),
        _ => put_word(text, Stream::Error, b"input could not be read\n"),
    }
}
