// The periodic list: which files are accepted.
#![tactic(auto)]

mod cycles;
mod head;
mod loads;
mod seen;
mod weights;
mod words;

ghost use Rattle.std.specs.Prelude.{◌≡◌};
ghost use Rattle.refusals.specs.Told.{told};
ghost use Rattle.lists.specs.Values.{cycles_of, periods_of};
ghost use Rattle.lists.specs.Accepts.{accepted};
ghost use Rattle.lists.specs.Answers.{header_and_words, told_read};

use crate::cycles::Cycles;
use crate::head::read_header;
use numbers::Reader;
use refusals::Refusal;

// The Basic Period in ms, and the gap per telegram and the sporadic reserve in bit times.
#[derive(Clone, Copy)]
pub struct Header {
    pub ms: u16,
    pub gap: u16,
    pub reserve: u16,
}

// An accepted list's header and its number of words.
#[derive(Clone, Copy)]
pub struct Accepted {
    pub header: Header,
    pub words: usize,
}

// How many cycles a list has.
pub fn cycles_of(ms: u16) -> usize
    ensures { result ≡ cycles_of ms }
{
    if ms == 1 { 11 } else { 10 }
}

// How many Basic Periods a Macro_Cycle has.
pub fn periods_of(ms: u16) -> usize
    ensures { result ≡ periods_of ms }
{
    if ms == 1 { 1024 } else { 512 }
}

// Is a list accepted. After the last cycle: 11, then 10. What passes 10 never gets 19: no more than 41 words fit into
// a Basic Period.
pub fn list_check(list: &[u8]) -> Result<Accepted, Refusal>
    ensures { told header_and_words result ≡ told_read (accepted list.now) }
{
    if 16384 < list.len() {
        return Err(Refusal::WrongLength);
    }
    let mut reader = Reader::new(list, 0);
    let header = match read_header(&mut reader) {
        Ok(header) => header,
        Err(refusal) => return Err(refusal),
    };
    let mut cycles = Cycles::new(header.gap);
    if let Err(refusal) = cycles.read(&mut reader, cycles_of(header.ms)) {
        return Err(refusal);
    }
    if reader.at < reader.src.len() {
        return Err(Refusal::BytesAfterList);
    }
    if cycles
        .loads
        .any_above((1500 * header.ms - header.reserve) as u32)
    {
        return Err(Refusal::PeriodOverfull);
    }
    Ok(Accepted {
        header,
        words: cycles.count,
    })
}
