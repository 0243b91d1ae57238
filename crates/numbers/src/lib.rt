// The numbers of the list file, in groups of seven bits, and the reader that yields them.
#![tactic(auto)]

ghost use Rattle.std.specs.Prelude.{◌≡◌, ◌++◌, ◌+◌, ◌≤◌, length, drop, IfSome, OnErr};
ghost use Rattle.refusals.specs.Told.{told};
ghost use Rattle.numbers.specs.Number.{number, number_at, run, sum};
ghost use Rattle.numbers.specs.Answers.{taken_of, value_and_place, value_then, left, Yields};

use refusals::Refusal;

// The number at the front of some bytes, and how many bytes it has.
#[tactic(auto, using(crate::proofs::NumberLaws::at_front))]
fn first_number(bytes: &[u8]) -> Option<(u16, usize)>
    ensures number { taken_of result ≡ number bytes.now }
    ensures inside { IfSome result (λ taken. taken.1 ≤ length bytes.now) }
{
    let &[a, ..] = bytes else { return None };
    if a < 128 {
        return Some((a as u16, 1));
    }
    let &[_, b, ..] = bytes else { return None };
    if b == 0 {
        return None;
    }
    if b < 128 {
        return Some((a as u16 - 128 + 128 * b as u16, 2));
    }
    let &[_, _, c, ..] = bytes else { return None };
    if c == 0 {
        return None;
    }
    if 3 < c {
        return None;
    }
    Some((a as u16 - 128 + 128 * (b as u16 - 128 + 128 * c as u16), 3))
}

// The number that starts at a place, and the place after it.
#[tactic(auto, using(crate::proofs::NumberLaws::past_end), unfolding(crate::specs::Number::number_at))]
pub fn number_at(s: &[u8], at: usize) -> Result<(u16, usize), Refusal>
    ensures { told value_and_place result ≡ number_at s.now at }
{
    if s.len() < at {
        return Err(Refusal::BadNumber);
    }
    let Some((value, len)) = first_number(&s[at..]) else {
        return Err(Refusal::BadNumber);
    };
    Ok((value, at + len))
}

// Carries the list's bytes and its place.
#[derive(Clone, Copy)]
pub struct Reader<'a> {
    pub src: &'a [u8],
    pub at: usize,
}

impl<'a> Reader<'a> {
    pub fn new(src: &'a [u8], at: usize) -> Reader<'a>
        ensures { (result.src ≡ src.entry) × (result.at ≡ at) }
    {
        Reader { src, at }
    }

    // The number at the reader's place, and the place after it.
    pub fn next(self) -> Result<(u16, usize), Refusal>
        ensures { told value_and_place result ≡ number_at self.entry.src.now self.entry.at }
    {
        number_at(self.src, self.at)
    }

    // Reads the number at the reader's place. The reader stands after it then, or where it stood if there is none.
    #[tactic(auto, using(crate::proofs::Answers::yields, crate::proofs::Answers::yields_none))]
    pub fn read(&mut self) -> Result<u16, Refusal>
        ensures value { told (value_then self.new.at) result ≡ number_at self.old.src.now self.old.at }
        ensures bytes { self.new.src ≡ self.old.src }
        ensures err { OnErr result (self.new.at ≡ self.old.at) }
        ensures left { Yields result (left self.old) (left self.new) }
    {
        let (value, next) = match self.next() {
            Ok(read) => read,
            Err(refusal) => return Err(refusal),
        };
        self.at = next;
        Ok(value)
    }
}

// The next number through a reader, for callers that keep bytes and place apart.
pub fn read_number(s: &[u8], at: usize) -> Result<(u16, usize), Refusal>
    ensures { told value_and_place result ≡ number_at s.now at }
{
    Reader::new(s, at).next()
}

// How many numbers were read, and the place after them, each by the name that its promise has.
#[derive(Clone, Copy)]
pub struct Run {
    pub count: usize,
    pub next: usize,
}

// Numbers one after another, as far as they go and out has places for them.
pub fn read_numbers(s: &[u8], at: usize, out: &mut [u16]) -> Run
    ensures { (result.count ≡ length (run (length out.old) (drop at s.now)).values) × (result.next ≡ at + (run (length out.old) (drop at s.now)).used)
        × (out.new ≡ (run (length out.old) (drop at s.now)).values ++ drop (length (run (length out.old) (drop at s.now)).values) out.old) }
{
    let mut reader = Reader::new(s, at);
    for (i, place) in out.iter_mut().enumerate() {
        let Ok(value) = reader.read() else {
            return Run {
                count: i,
                next: reader.at,
            };
        };
        *place = value;
    }
    Run {
        count: out.len(),
        next: reader.at,
    }
}

// What some numbers add up to, and the place after them, each by the name that its promise has.
#[derive(Clone, Copy)]
pub struct Summed {
    pub total: usize,
    pub next: usize,
}

// At most k numbers one after another, as far as they go, added up.
pub fn sum_numbers(s: &[u8], at: usize, k: u16) -> Summed
    ensures { (result.total ≡ sum (run k (drop at s.now)).values) × (result.next ≡ at + (run k (drop at s.now)).used) }
{
    let mut reader = Reader::new(s, at);
    let mut total: usize = 0;
    for _ in 0..k {
        let Ok(value) = reader.read() else { break };
        total += value as usize;
    }
    Summed {
        total,
        next: reader.at,
    }
}
