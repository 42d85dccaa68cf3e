// Text put into a lent buffer piece after piece: words, numbers in decimal, and addresses as eight hexadecimal digits.
ghost use Rattle.std.specs.Prelude.{◌≡◌, [], ◌∷◌, ◌+◌, ◌<◌, ◌≤◌, length};
ghost use Rattle.fields.specs.Patch.{patch};
ghost use Rattle.lines.specs.Text.{hex8, decimal};
ghost use Rattle.lines.specs.Put.{Puts};

use fields::buffer::copy_front;

// At the front: the digits of a tenth of `n`, then its last digit; answered is how many they are.
// As a method of `Text` it misses the bar of speed: lent to calls inside each other the text stands in memory, and 256 sections take three times as long.
fn put_decimal(digits: &mut [u8], n: usize) -> usize
    requires { length (decimal n) ≤ length digits.old }
    ensures many { result ≡ length (decimal n) }
    ensures put { digits.new ≡ patch digits.old 0 (decimal n) }
{
    if n < 10 {
        digits[0] = b'0' + n as u8;
        return 1;
    }
    let many = put_decimal(digits, n / 10);
    digits[many] = b'0' + (n % 10) as u8;
    many + 1
}

// What is put follows the text, whose end is `end`; the buffer behind stays.
#[derive(Drop)]
pub struct Text<'a> {
    bytes: &'a mut [u8],
    pub end: usize,
}

impl<'a> Text<'a> {
    pub fn new(bytes: &'a mut [u8]) -> Text<'a>
        ensures same_reference { result.bytes.ghost_name ≡ bytes.entry.ghost_name }
        ensures nothing_put { (result.bytes.now ≡ bytes.old) × (result.end ≡ 0) }
    {
        Text { bytes, end: 0 }
    }

    fn byte(&mut self, byte: u8)
        requires { self.old.end < length self.old.bytes.now }
        ensures { Puts self.old (byte ∷ []) self.new }
    {
        self.bytes[self.end] = byte;
        self.end += 1;
    }

    pub fn word(&mut self, word: &[u8])
        requires { self.old.end + length word.now ≤ length self.old.bytes.now }
        ensures { Puts self.old word.now self.new }
    {
        copy_front(&mut self.bytes[self.end..], word);
        self.end += word.len();
    }

    pub fn decimal(&mut self, n: usize)
        requires { self.old.end + length (decimal n) ≤ length self.old.bytes.now }
        ensures { Puts self.old (decimal n) self.new }
    {
        self.end += put_decimal(&mut self.bytes[self.end..], n);
    }

    // Always eight digits.
    pub fn hex(&mut self, address: u32)
        requires { self.old.end + 8 ≤ length self.old.bytes.now }
        ensures { Puts self.old (hex8 address) self.new }
    {
        for i in 0..8u32 {
            let digit = (address >> (28 - 4 * i)) % 16;
            self.byte(b"0123456789ABCDEF"[digit as usize]);
        }
    }
}
