// What the programs that test print: answers, and the hash of what was lent.
#![tactic(auto)]

ghost use Rattle.std.specs.Prelude.{◌≡◌, []};
ghost use Rattle.cases.specs.Hash.{hashed, hash_of, hash_of_numbers};

use refusals::Refusal;
use std::fmt;
use std::hash::Hasher;

// Each byte, and each place for a number, of a lent output before the call.
pub const UNTOUCHED: u8 = 0xA5;

pub const UNTOUCHED_PLACE: u16 = 0xA5A5;

// A refusal, by its number.
#[derive(Clone, Copy)]
pub struct Refused(pub Refusal);

impl fmt::Display for Refused {
    fn fmt<W: fmt::Write>(&self, f: &mut fmt::Formatter<W>) -> fmt::Result {
        write!(f, "refused {}", self.0.number())
    }
}

// What a call answered: its values, or why it was refused.
#[derive(Drop)]
pub struct Answer<T>(pub Result<T, Refusal>);

impl<T: fmt::Display> fmt::Display for Answer<T> {
    fn fmt<W: fmt::Write>(&self, f: &mut fmt::Formatter<W>) -> fmt::Result {
        match &self.0 {
            Ok(values) => write!(f, "gives {values}"),
            Err(refusal) => write!(f, "{}", Refused(*refusal)),
        }
    }
}

// FNV-1a of 32 bits.
#[derive(Clone, Copy)]
pub struct Fnv(u32);

impl Default for Fnv {
    ghost is_default = { λ hash. hash.0 ≡ hash_of [] };

    fn default() -> Self {
        Fnv(2166136261)
    }
}

// The hash of some bytes.
impl From<&[u8]> for Fnv {
    ghost from_gives = { λ bytes hash. hash.0 ≡ hash_of bytes.now };

    fn from(bytes: &[u8]) -> Self {
        let mut hash = Fnv::default();
        hash.write(bytes);
        hash
    }
}

// The hash of some numbers, each high byte first.
impl From<&[u16]> for Fnv {
    ghost from_gives = { λ numbers hash. hash.0 ≡ hash_of_numbers numbers.now };

    fn from(numbers: &[u16]) -> Self {
        let mut hash = Fnv::default();
        for number in numbers {
            hash.write(&number.to_be_bytes());
        }
        hash
    }
}

impl fmt::Display for Fnv {
    fn fmt<W: fmt::Write>(&self, f: &mut fmt::Formatter<W>) -> fmt::Result {
        write!(f, "{}", self.0)
    }
}

impl Hasher for Fnv {
    ghost write = { λ hash bytes. record { 0 = hashed hash.0 bytes } };

    ghost finish = { λ hash. hash.0 };

    fn finish(&self) -> u64 {
        u64::from(self.0)
    }

    fn write(&mut self, bytes: &[u8]) {
        for byte in bytes {
            self.0 = (self.0 ^ u32::from(*byte)).wrapping_mul(16777619);
        }
    }
}
