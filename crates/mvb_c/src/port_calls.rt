// What C calls of `ports`: each call has the clauses of the function that it stands for.
ghost use Rattle.std.specs.Prelude.{◌≡◌};
ghost use Rattle.refusals.specs.Codes.{told_code};
ghost use Rattle.ports.specs.Arriving.{arrive, arrive_store, arrive_ages};
ghost use Rattle.ports.specs.Answering.{answer, answer_out};
ghost use Rattle.ports.specs.Reading.{read, read_out, read_age};
ghost use Rattle.ports.specs.Filling.{fill, fill_store};
ghost use Rattle.ports.specs.Ticking.{tick, tick_ages};

use port_table::Port;

// A frame arrives for the sink that its word names: data replaced, age 0.
#[unsafe(no_mangle)]
pub extern "C" fn mvb_arrive(
    table: &[Port],
    store: &mut [u8],
    ages: &mut [u16],
    word: u16,
    frame: &[u8],
) -> u32
    ensures { (told_code result ≡ arrive table.now store.old ages.old word frame.now) × (store.new ≡ arrive_store table.now store.old ages.old word frame.now) × (ages.new ≡ arrive_ages table.now store.old ages.old word frame.now) }
{
    ports::mvb_arrive(table, store, ages, word, frame)
}

// The source that a word names answers: its Slave Frame goes to the start of `out`.
#[unsafe(no_mangle)]
pub extern "C" fn mvb_answer(table: &[Port], store: &[u8], word: u16, out: &mut [u8]) -> u32
    ensures { (told_code result ≡ answer table.now store.now word out.old) × (out.new ≡ answer_out table.now store.now word out.old) }
{
    ports::mvb_answer(table, store, word, out)
}

// The application reads a sink: its data goes to the start of `out`, its age to `age`.
#[unsafe(no_mangle)]
pub extern "C" fn mvb_read(
    table: &[Port],
    store: &[u8],
    ages: &[u16],
    address: u16,
    out: &mut [u8],
    age: &mut u16,
) -> u32
    ensures { (told_code result ≡ read table.now store.now ages.now address out.old) × (out.new ≡ read_out table.now store.now ages.now address out.old) × (age.new ≡ read_age table.now store.now ages.now address out.old age.old) }
{
    ports::mvb_read(table, store, ages, address, out, age)
}

// The application fills a source.
#[unsafe(no_mangle)]
pub extern "C" fn mvb_fill(table: &[Port], store: &mut [u8], address: u16, data: &[u8]) -> u32
    ensures { (told_code result ≡ fill table.now store.old address «data».now) × (store.new ≡ fill_store table.now store.old address «data».now) }
{
    ports::mvb_fill(table, store, address, data)
}

// A tick: every sink is one older.
#[unsafe(no_mangle)]
pub extern "C" fn mvb_tick(table: &[Port], ages: &mut [u16]) -> u32
    ensures { (told_code result ≡ tick table.now ages.old) × (ages.new ≡ tick_ages table.now ages.old) }
{
    ports::mvb_tick(table, ages)
}
