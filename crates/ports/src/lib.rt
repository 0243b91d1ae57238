// Ports and ages (document 01, "Ports and ages"): the five calls, as C calls them. `mvb_c` exports them.
// An answer below 65,536 is the value, 65,536 + n is refusal n.
#![tactic(auto)]

mod rules;
mod ticks;

ghost use Rattle.std.specs.Prelude.{◌≡◌, ◌<◌, MatchResult};
ghost use Rattle.refusals.specs.Told.{told, single};
ghost use Rattle.refusals.specs.Codes.{told_code};
ghost use Rattle.ports.specs.Arriving.{arrive, arrive_store, arrive_ages};
ghost use Rattle.ports.specs.Answering.{answer, answer_out};
ghost use Rattle.ports.specs.Reading.{read, read_out, read_age};
ghost use Rattle.ports.specs.Filling.{fill, fill_store};
ghost use Rattle.ports.specs.Ticking.{tick, tick_ages};
ghost use Rattle.ports.specs.Inside.{done};

use port_table::Port;
use refusals::Refusal;

// A frame arrives for the sink that its word names: data replaced, age 0.
pub fn mvb_arrive(
    table: &[Port],
    store: &mut [u8],
    ages: &mut [u16],
    word: u16,
    frame: &[u8],
) -> u32
    ensures { (told_code result ≡ arrive table.now store.old ages.old word frame.now) × (store.new ≡ arrive_store table.now store.old ages.old word frame.now) × (ages.new ≡ arrive_ages table.now store.old ages.old word frame.now) }
{
    done_code(rules::arrive(table, store, ages, word, frame))
}

// The source that a word names answers: its Slave Frame goes to the start of `out`.
pub fn mvb_answer(table: &[Port], store: &[u8], word: u16, out: &mut [u8]) -> u32
    ensures { (told_code result ≡ answer table.now store.now word out.old) × (out.new ≡ answer_out table.now store.now word out.old) }
{
    count_code(rules::answer(table, store, word, out))
}

// The application reads a sink: its data goes to the start of `out`, its age to `age`.
pub fn mvb_read(
    table: &[Port],
    store: &[u8],
    ages: &[u16],
    address: u16,
    out: &mut [u8],
    age: &mut u16,
) -> u32
    ensures { (told_code result ≡ read table.now store.now ages.now address out.old) × (out.new ≡ read_out table.now store.now ages.now address out.old) × (age.new ≡ read_age table.now store.now ages.now address out.old age.old) }
{
    count_code(rules::read(table, store, ages, address, out, age))
}

// The application fills a source.
pub fn mvb_fill(table: &[Port], store: &mut [u8], address: u16, data: &[u8]) -> u32
    ensures { (told_code result ≡ fill table.now store.old address «data».now) × (store.new ≡ fill_store table.now store.old address «data».now) }
{
    done_code(rules::fill(table, store, address, data))
}

// A tick: every sink is one older.
pub fn mvb_tick(table: &[Port], ages: &mut [u16]) -> u32
    ensures { (told_code result ≡ tick table.now ages.old) × (ages.new ≡ tick_ages table.now ages.old) }
{
    done_code(ticks::tick(table, ages))
}

// How C sees the answer of a call that has no value.
#[tactic(auto, using(refusals::proofs::Codes::value_told, refusals::proofs::Codes::refusal_told))]
fn done_code(answer: Result<(), Refusal>) -> u32
    ensures { told_code result ≡ told done answer }
{
    match answer {
        Ok(()) => 0,
        Err(refusal) => refusal.code(),
    }
}

// How C sees the answer of a call that writes an output: how many bytes of it.
#[tactic(auto, using(refusals::proofs::Codes::value_told, refusals::proofs::Codes::refusal_told))]
fn count_code(answer: Result<usize, Refusal>) -> u32
    requires { MatchResult answer (λ n. n < 65536) (λ _. Unit {0}) }
    ensures { told_code result ≡ told single answer }
{
    match answer {
        Ok(bytes) => bytes as u32,
        Err(refusal) => refusal.code(),
    }
}
