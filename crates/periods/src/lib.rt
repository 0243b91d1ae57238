// What a Basic Period sends.
#![tactic(auto)]

mod skips;

ghost use Rattle.std.specs.Prelude.{◌≡◌, [], ◌∷◌, ◌++◌, ◌+◌, ◌≤◌, ◌<◌, length, drop};
ghost use Rattle.refusals.specs.Told.{gives, refusal, told, single};
ghost use Rattle.lists.specs.Values.{periods_of};
ghost use Rattle.periods.specs.Period.{period_by};
ghost use Rattle.periods.specs.Inside.{CycleHere, SplitHere, SubFits, PartSent, IsList, PeriodWords};

use lists::{cycles_of, list_check, periods_of};
use numbers::{read_numbers, sum_numbers};
use refusals::Refusal;

// How many words of a cycle go out, and the place after the cycle. Bytes and place go by themselves, as `sum_numbers` and
// `read_numbers` take them.
#[derive(Clone, Copy)]
struct Part {
    many: usize,
    next: usize,
}

// Words to the front of others: std's copy is no part of this program, and the list's text copies bytes.
fn put(src: &[u16], out: &mut [u16])
    requires { length src.now ≤ length out.old }
    ensures { out.new ≡ src.now ++ drop (length src.now) out.old }
{
    for (i, word) in src.iter().enumerate() {
        out[i] = *word;
    }
}

// Subcycle sub of a cycle with split numbers, whose words start at a place: the words are passed over, the split numbers
// added up, and the words of the Subcycle read.
fn put_split(list: &[u8], at: usize, count: u16, size: u16, sub: u16, out: &mut [u16]) -> Part
    requires { (h : SplitHere list.now at count size) × SubFits h.c size sub (length out.old) }
    ensures { (h : SplitHere list.now at count size) → SubFits h.c size sub (length out.old)
        → PartSent list.now h.c sub h.rest out.old out.new result.many result.next }
{
    let words = skips::skip(list, at, count);
    let before = sum_numbers(list, words, sub);
    let here = sum_numbers(list, before.next, 1);
    let next = skips::skip(list, here.next, size - sub - 1);
    let first = skips::skip(list, at, before.total as u16);
    let many = here.total;
    read_numbers(list, first, &mut out[..many]);
    Part { many, next }
}

// Subcycle sub of the cycle at a place, with so many Subcycles: its words at the front of out.
fn put_subcycle(list: &[u8], at: usize, size: u16, sub: u16, out: &mut [u16]) -> Part
    requires { (h : CycleHere list.now at size) × SubFits h.c size sub (length out.old) }
    ensures { (h : CycleHere list.now at size) → SubFits h.c size sub (length out.old)
        → PartSent list.now h.c sub h.rest out.old out.new result.many result.next }
{
    let c = sum_numbers(list, at, 1);
    let count = c.total;
    if size == 1 {
        let all = read_numbers(list, c.next, &mut out[..count]);
        return Part {
            many: count,
            next: all.next,
        };
    }
    if count == 0 {
        return Part {
            many: count,
            next: c.next,
        };
    }
    put_split(list, c.next, count as u16, size, sub, out)
}

// The words of Basic Period j of an accepted list, at the front of out: how many. The list's text walks the cycles too; a
// walk for both would be public, with a promise on any bytes.
fn period_words(list: &[u8], ms: u16, j: u16, out: &mut [u16]) -> usize
    requires { IsList list.now ms × (j < periods_of ms) × (length out.old ≡ 64) }
    ensures { PeriodWords list.now j result out.old out.new }
{
    let cycles = cycles_of(ms);
    let header = sum_numbers(list, 0, 4);
    let mut p = header.next;
    let mut k: usize = 0;
    let mut size: u16 = 1;
    for n in 0..cycles {
        let c = put_subcycle(list, p, size, j % size, &mut out[k..]);
        k += c.many;
        p = c.next;
        size += size;
    }
    k
}

// Basic Period j of an accepted list: 12, then 4.
fn send(list: &[u8], ms: u16, j: u16, out: &mut [u16]) -> Result<usize, Refusal>
    requires { IsList list.now ms }
    ensures { (told single result ≡ period_by list.now j (length out.old) refusal (λ ws. gives (length ws ∷ [])))
        × (out.new ≡ period_by list.now j (length out.old) (λ n. out.old) (λ ws. ws ++ drop (length ws) out.old)) }
{
    if periods_of(ms) <= j as usize {
        return Err(Refusal::NoSuchPeriod);
    }
    let mut sent = [0u16; 64];
    let k = period_words(list, ms, j, &mut sent);
    if out.len() < k {
        return Err(Refusal::TooShort);
    }
    put(&sent[..k], out);
    Ok(k)
}

// The words of Basic Period j of a list, at the front of out.
pub fn basic_period(list: &[u8], j: u16, out: &mut [u16]) -> Result<usize, Refusal>
    ensures { (told single result ≡ period_by list.now j (length out.old) refusal (λ ws. gives (length ws ∷ [])))
        × (out.new ≡ period_by list.now j (length out.old) (λ n. out.old) (λ ws. ws ++ drop (length ws) out.old)) }
{
    match list_check(list) {
        Err(refusal) => Err(refusal),
        Ok(accepted) => send(list, accepted.header.ms, j, out),
    }
}
