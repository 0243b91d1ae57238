// A tick.
ghost use Rattle.std.specs.Prelude.{◌≡◌, ◌+◌, ◌≤◌, length};
ghost use Rattle.refusals.specs.Told.{told};
ghost use Rattle.ports.specs.Ticking.{tick, tick_ages};
ghost use Rattle.ports.specs.Inside.{done, older_by, part_end, AgedRun};

use port_table::Port;
use refusals::Refusal;

// The age of a record's data after a tick, by its mark: a source's is 0, and its age stays.
fn older(mark: u16, age: u16) -> u16
    ensures { result ≡ older_by mark age }
{
    if mark == 0 {
        return age;
    }
    if 65535 <= age {
        return 65535;
    }
    age + 1
}

// The ages of eight records from one on: the lowest mark is the first one's. With a mask for each record all eight are
// aged at once: record after record falls behind the C peer.
fn age_eight(marks: u64, from: usize, ages: &mut [u16])
    requires { (from + 8 ≤ 256) × (from + 8 ≤ length ages.old) }
    ensures { AgedRun marks from (from + 8) ages.old ages.new }
{
    let bits = (marks % 256) as u16;
    let mut mask: u16 = 1;
    for i in 0..8 {
        let at = from + i;
        ages[at] = older(bits & mask, ages[at]);
        mask = mask * 2;
    }
}

// The ages of fewer records, one after the other.
fn age_few(marks: u64, from: usize, to: usize, ages: &mut [u16])
    requires { (from ≤ to) × (to ≤ length ages.old) }
    ensures { AgedRun marks from to ages.old ages.new }
{
    let mut left = marks;
    for i in from..to {
        ages[i] = older((left % 2) as u16, ages[i]);
        left = left / 2;
    }
}

// The ages of records of one part, from one record up to another: eight at a time, then the rest.
fn age_part(marks: u64, from: usize, to: usize, ages: &mut [u16])
    requires { (from ≤ to) × (to ≤ 256) × (to ≤ length ages.old) }
    ensures { AgedRun marks from to ages.old ages.new }
{
    let mut left = marks;
    let eights = (to - from) / 8;
    for eight in 0..eights {
        age_eight(left, from + 8 * eight, ages);
        left = left / 256;
    }
    age_few(left, from + 8 * eights, to, ages);
}

// Where the part ends that begins at a record: after 64 records, or with the last.
fn part_end(from: usize, count: usize) -> usize
    requires { (from ≤ count) × (count ≤ 256) }
    ensures { result ≡ part_end from count }
{
    if count - from < 64 { count } else { from + 64 }
}

// 13; 4 for ages; else the ages of all records, part after part.
#[tactic(auto, using(port_table::proofs::Told::tested_good, port_table::proofs::Told::tested_bad, port_table::proofs::Told::tested_few), unfolding(crate::specs::Ticking::tick, crate::specs::Ticking::tick_ages, crate::specs::Ticking::tick_refusal))]
pub(crate) fn tick(table: &[Port], ages: &mut [u16]) -> Result<(), Refusal>
    ensures { (told done result ≡ tick table.now ages.old) × (ages.new ≡ tick_ages table.now ages.old) }
{
    let Some(tested) = port_table::test_table(table) else {
        return Err(Refusal::TableNotGood);
    };
    let count = tested.count;
    if ages.len() < count {
        return Err(Refusal::TooShort);
    }
    for part in 0..(count + 63) / 64 {
        let from = 64 * part;
        let to = part_end(from, count);
        age_part(tested.sinks[part], from, to, ages);
    }
    Ok(())
}
