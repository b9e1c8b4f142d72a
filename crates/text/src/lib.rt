// Words and numbers as bytes in a lent buffer, one text behind the other; the caller has seen to it that
// each fits. specs/Text.antt says what is right.
#![tactic(auto)]

ghost use Rattle.std.specs.Prelude.{◌≡◌, ◌++◌, ◌<◌, ◌≤◌, length};
ghost use Rattle.text.specs.Text.{bytes, digit, decimal, hex};
ghost use Rattle.text.specs.Inside.{word_digits, Fits, Writes};

// The bases of the digits, and what the upper places of a hex text count.
const TEN: u64 = 10;

const SIXTEEN: u64 = 16;

const SIXTEEN_SQUARED: u64 = 256;

const SIXTEEN_CUBED: u64 = 4_096;

// What the digits of a number below 16 are written as.
const DIGITS: [u8; 16] = *b"0123456789abcdef";

// A text that is being written into a lent buffer: it ends before place `at`.
#[derive(Drop)]
pub struct Writing<'a> {
    pub buffer: &'a mut [u8],
    pub at: usize,
}

impl Writing<'_> {
    // Two numbers, each behind its words, and the line end.
    pub fn put_line(&mut self, first: &[u8], a: u64, second: &[u8], b: u64)
        requires { Fits self.old (first.now ++ decimal a ++ (second.now ++ decimal b) ++ bytes "\n") }
        ensures { Writes self.old (first.now ++ decimal a ++ (second.now ++ decimal b) ++ bytes "\n") self.new }
    {
        self.put_named(first, a);
        self.put_named(second, b);
        self.put_words(b"\n");
    }

    // Words and the number behind them.
    pub fn put_named(&mut self, words: &[u8], n: u64)
        requires { Fits self.old (words.now ++ decimal n) }
        ensures { Writes self.old (words.now ++ decimal n) self.new }
    {
        self.put_words(words);
        self.put_number(n);
    }

    // Words.
    pub fn put_words(&mut self, words: &[u8])
        requires { Fits self.old words.now }
        ensures { Writes self.old words.now self.new }
    {
        let end = self.at + words.len();
        self.buffer[self.at..end].copy_from_slice(words);
        self.at = end;
    }

    // A number in decimal, from its last digit to its first.
    // Kept: not proved: by `write!`, which promises its bytes only where it answers `Ok`, and not that it does so.
    pub fn put_number(&mut self, n: u64)
        requires { Fits self.old (decimal n) }
        ensures { Writes self.old (decimal n) self.new }
    {
        let digits = digit_count(n);
        let mut rest = n;
        for place in (self.at..self.at + digits).rev() {
            self.buffer[place] = digit_of(rest % TEN);
            rest /= TEN;
        }
        self.at += digits;
    }

    // Four hex digits.
    // Kept: not proved: by `write!`, for the reason that `put_number` gives.
    pub fn put_hex(&mut self, n: u16)
        requires { Fits self.old (hex n) }
        ensures { Writes self.old (hex n) self.new }
    {
        let wide = n as u64;
        let first = digit_of(wide / SIXTEEN_CUBED % SIXTEEN);
        let second = digit_of(wide / SIXTEEN_SQUARED % SIXTEEN);
        let third = digit_of(wide / SIXTEEN % SIXTEEN);
        let fourth = digit_of(wide % SIXTEEN);
        self.put_words(&[first, second, third, fourth]);
    }
}

// How many decimal digits a number has.
pub fn digit_count(n: u64) -> usize
    ensures { (result ≡ length (decimal n)) × (result ≤ word_digits) }
{
    n.max(1).ilog10() as usize + 1
}

// The digit of a number below 16.
fn digit_of(n: u64) -> u8
    requires { n < 16 }
    ensures { result ≡ digit n }
{
    DIGITS[n as usize]
}
