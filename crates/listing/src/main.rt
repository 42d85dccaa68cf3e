// Prints the listing of the COFF file that is read from standard input.
#![tactic(auto)]

ghost use Rattle.std.specs.Prelude.{◌≤◌, length};

use lines::output::{Stream, put_output};
use std::io;
use std::io::{Read, Write};

// Reads until `buf` is full, the input ends or a read fails. The answer is how many bytes now stand at the start of `buf`.
// The library's `read_exact` does not tell how many bytes came before the end, and its `read_to_end` takes a heap.
fn read_full(input: &mut impl Read, buf: &mut [u8]) -> usize
    ensures { result ≤ length buf.new }
{
    let mut done = 0;
    while done < buf.len() {
        match input.read(&mut buf[done..]) {
            Ok(0) | Err(_) => break,
            Ok(n) => done += n,
        }
    }
    done
}

fn main(rt: HostRuntime) -> io::Result<()> {
    let mut stdin = rt.stdin();
    let mut input = [0u8; 65536];
    let got = read_full(&mut stdin, &mut input);
    // One more read tells whether the input has ended. What it brings is not looked at, so it may
    // go where the text will stand.
    let mut text = [0u8; 16384];
    let more = stdin.read(&mut text).ok();
    let output = put_output(&mut text, &input, got, more);
    let printed = &text[..output.length];
    match output.stream {
        Stream::Output => rt.stdout().write_all(printed),
        Stream::Error => rt.stderr().write_all(printed),
    }
}
