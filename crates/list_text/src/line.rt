// A line of the text, in bytes of its own until it is whole.
ghost use Rattle.std.specs.Prelude.{◌≡◌, [], ◌∷◌, ◌++◌, ◌+◌, ◌≤◌, ◌<◌, length, drop};
ghost use Rattle.list_text.specs.Text.{digit, decimal, hex, field, header_line, word_line, refused_line};
ghost use Rattle.list_text.specs.Inside.{place, Wrote};

use lists::Header;
use std::marker::Model;

// At most 20 bytes: fixed memory.
#[derive(Drop)]
pub(crate) struct Line {
    bytes: [u8; 20],
    many: usize,
}

impl Model for Line {
    ghost use Rattle.std.specs.Prelude.{List, ℕ, ◌≤◌, take};

    ghost Value = { List ℕ };

    ghost view = { λ l. take l.many l.bytes };

    ghost invariant = { λ l. l.many ≤ 20 };
}

fn digit_of(d: u16) -> u8
    requires { d < 16 }
    ensures { result ≡ digit d }
{
    if d < 10 {
        b'0' + d as u8
    } else {
        b'A' - 10 + d as u8
    }
}

// How many digits a number below 10,000 has, beside `push_decimal`: counted line by line, a text took more than twice the
// C peer's time.
#[tactic(auto, using(crate::proofs::LineLaws::digits_known))]
fn digits(n: u16) -> usize
    ensures { (result ≡ length (decimal n)) × (result ≤ 4) }
{
    if n < 10 {
        return 1;
    }
    if n < 100 {
        return 2;
    }
    if n < 1000 {
        return 3;
    }
    4
}

// How long the line of any word of a Subcycle is.
#[tactic(auto, using(crate::proofs::LineLaws::line_long))]
pub(crate) fn word_length(cycle: u16, sub: u16) -> usize
    ensures { (result ≡ length (word_line cycle sub 0)) × (result ≤ 15) }
{
    digits(cycle) + digits(sub) + 7
}

// Copies eight bytes. All are read before one is written, so that they can move at once. Beside the `copy_block` of frames,
// since one for both would be a public function.
fn copy_eight(from: &[u8], to: &mut [u8])
    requires { (length from.now ≡ 8) × (length to.old ≡ 8) }
    ensures { to.new ≡ from.now }
{
    let &[a, b, c, d, e, f, g, h] = from else {
        return;
    };
    to[0] = a;
    to[1] = b;
    to[2] = c;
    to[3] = d;
    to[4] = e;
    to[5] = f;
    to[6] = g;
    to[7] = h;
}

impl Line {
    pub(crate) fn new() -> Line
        ensures { result ≡ [] }
    {
        Line {
            bytes: [0; 20],
            many: 0,
        }
    }

    fn push(&mut self, byte: u8)
        requires { length self.old < 20 }
        ensures { self.new ≡ self.old ++ byte ∷ [] }
    {
        self.bytes[self.many] = byte;
        self.many += 1;
    }

    // The digit that counts units of this size, where the number has it.
    #[tactic(auto, unfolding(crate::specs::Inside::place))]
    fn push_place(&mut self, n: u16, unit: u16)
        requires { (length self.old < 20) × (1 ≤ unit) }
        ensures { self.new ≡ self.old ++ place n unit }
    {
        if unit <= n {
            self.push(digit_of(n / unit % 10));
        }
    }

    // A number below 10,000 in decimal.
    #[tactic(auto, using(crate::proofs::LineLaws::places_few))]
    fn push_decimal(&mut self, n: u16)
        requires { (n < 10000) × (length self.old ≤ 16) }
        ensures { self.new ≡ self.old ++ decimal n }
    {
        self.push_place(n, 1000);
        self.push_place(n, 100);
        self.push_place(n, 10);
        self.push(digit_of(n % 10));
    }

    fn push_hex(&mut self, word: u16)
        requires { length self.old ≤ 16 }
        ensures { self.new ≡ self.old ++ hex word }
    {
        self.push(digit_of(word / 4096));
        self.push(digit_of(word / 256 % 16));
        self.push(digit_of(word / 16 % 16));
        self.push(digit_of(word % 16));
    }

    // A number and the byte after it.
    #[tactic(auto, using(crate::proofs::LineLaws::decimals_few))]
    fn push_field(&mut self, n: u16, after: u8)
        requires { (n < 10000) × (length self.old ≤ 15) }
        ensures { self.new ≡ self.old ++ field n after }
    {
        self.push_decimal(n);
        self.push(after);
    }

    #[tactic(auto, using(crate::proofs::LineLaws::fields_few), unfolding(crate::specs::Text::header_line))]
    pub(crate) fn header(head: Header, words: u16) -> Line
        requires { (head.ms < 10000) × (head.gap < 10000) × (head.reserve < 10000) × (words < 10000) }
        ensures { result ≡ header_line head.ms head.gap head.reserve words }
    {
        let mut line = Line::new();
        line.push_field(head.ms, b' ');
        line.push_field(head.gap, b' ');
        line.push_field(head.reserve, b' ');
        line.push_field(words, b'\n');
        line
    }

    // The line of a word, in an empty line: made in its place, since a line that was handed back would be copied.
    #[tactic(auto, using(crate::proofs::LineLaws::fields_few), unfolding(crate::specs::Text::word_line))]
    pub(crate) fn push_word(&mut self, cycle: u16, sub: u16, word: u16)
        requires { (cycle < 10000) × (sub < 10000) × (self.old ≡ []) }
        ensures { self.new ≡ word_line cycle sub word }
    {
        self.push_hex(word);
        self.push(b' ');
        self.push_field(cycle, b' ');
        self.push_field(sub, b'\n');
    }

    // A refusal by its number.
    #[tactic(auto, unfolding(crate::specs::Text::refused_line))]
    pub(crate) fn refused(n: u16) -> Line
        requires { n < 10000 }
        ensures { result ≡ refused_line n }
    {
        let mut line = Line::new();
        for byte in b"refused " {
            line.push(*byte);
        }
        line.push_field(n, b'\n');
        line
    }

    // How many bytes the line has.
    pub(crate) fn len(&self) -> usize
        ensures { (result ≡ length self.now) × (result ≤ 20) }
    {
        self.many
    }

    // The line at a place, where there is room for it; the answer is the place after it.
    pub(crate) fn put(&self, out: &mut [u8], at: usize) -> usize
        requires { at ≤ 100000 }
        ensures { Wrote at self.now out.old out.new result }
    {
        let end = at + self.many;
        if out.len() < end {
            return end;
        }
        for (i, byte) in self.bytes[..self.many].iter().enumerate() {
            out[at + i] = *byte;
        }
        end
    }

    // The line with another word in the place of its first four digits. It is copied as its first eight bytes and its last
    // eight, which overlap: each is one move, where a copy as long as the line would be a call.
    fn copy_with(&self, word: u16, to: &mut [u8])
        requires { (8 ≤ length self.now) × (length self.now ≤ 16) × (length to.old ≡ length self.now) }
        ensures { to.new ≡ hex word ++ drop 4 self.now }
    {
        let rest = self.many - 8;
        copy_eight(&self.bytes[..8], &mut to[..8]);
        copy_eight(&self.bytes[rest..self.many], &mut to[rest..]);
        to[0] = digit_of(word / 4096);
        to[1] = digit_of(word / 256 % 16);
        to[2] = digit_of(word / 16 % 16);
        to[3] = digit_of(word % 16);
    }

    // The line with another word, at a place with room for it; the answer is the place after it.
    pub(crate) fn put_word(&self, out: &mut [u8], at: usize, word: u16) -> usize
        requires { (8 ≤ length self.now) × (length self.now ≤ 16) × (at + length self.now ≤ length out.old) }
        ensures { Wrote at (hex word ++ drop 4 self.now) out.old out.new result }
    {
        let end = at + self.many;
        self.copy_with(word, &mut out[at..end]);
        end
    }
}
