// The load of the Basic Periods.
ghost use Rattle.std.specs.Prelude.{◌≡◌, ◌+◌, ◌*◌, ◌^◌, ◌≤◌, ◌<◌, [], ◌∷◌, ◌++◌, List, ℕ, length, take, drop, get_or, ltb};
ghost use Rattle.numbers.specs.Answers.{left};
ghost use Rattle.lists.specs.Rules.{rules};
ghost use Rattle.lists.specs.Reading.{summed_in, split_in};
ghost use Rattle.lists.specs.Sends.{some};
ghost use Rattle.lists.specs.Inside.{Reads};
ghost use Rattle.lists.specs.Loads.{IsSmall, widened, AddsParts, AddsCycle};

use crate::head::read_within;
use crate::weights::Weights;
use numbers::Reader;
use refusals::Refusal;
use std::marker::Model;

// So many words from a place on, as far as there are words.
fn part(words: &[u16], from: usize, count: usize) -> &[u16]
    ensures { result.now ≡ take count (drop from words.now) }
{
    if words.len() <= from {
        return &words[..0];
    }
    let rest = &words[from..];
    if rest.len() < count {
        return rest;
    }
    &rest[..count]
}

// Writes the front again behind itself.
#[tactic(auto, using(crate::proofs::CycleLaws::repeat_next))]
fn repeat(loads: &mut [u32], len: usize)
    requires { 2 * len ≤ length loads.old }
    ensures { take (len * 2) loads.new ≡ take len loads.old ++ take len loads.old }
{
    for i in 0..len {
        loads[len + i] = loads[i];
    }
}

// Reads as many split numbers as there are loads. What each part of the words weighs is added to its load.
fn add_parts(
    reader: &mut Reader,
    weights: &Weights,
    words: &[u16],
    loads: &mut [u32],
) -> Result<(), Refusal>
    requires few { length words.now ≤ 256 }
    requires periods { length loads.old ≤ 1024 }
    requires small { IsSmall 10 loads.old }
    ensures { Reads result (left reader.new) (summed_in rules (length loads.old) (length words.now) (left reader.old))
        (λ zs. AddsParts weights.now.by_f_code words.now zs loads.old loads.new) }
{
    let mut total: usize = 0;
    for load in loads.iter_mut() {
        let count = match read_within(reader, 0, 256) {
            Ok(count) => count as usize,
            Err(refusal) => return Err(refusal),
        };
        // Most Subcycles have no words.
        if count == 0 {
            continue;
        }
        *load += weights.sum(part(words, total, count));
        total += count;
    }
    if total != words.len() {
        return Err(Refusal::SplitSumWrong);
    }
    Ok(())
}

// Reads the split numbers of a cycle with these words, and adds what each Subcycle weighs to its load.
fn add_subcycles(
    reader: &mut Reader,
    weights: &Weights,
    words: &[u16],
    loads: &mut [u32],
) -> Result<(), Refusal>
    requires few { length words.now ≤ 256 }
    requires periods { length loads.old ≤ 1024 }
    requires small { IsSmall 10 loads.old }
    ensures { (n : ℕ) → length loads.old ≡ 2 ^ n → Reads result (left reader.new) (split_in rules n (length words.now) (left reader.old))
        (λ zs. AddsCycle weights.now.by_f_code (record { words = words.now; splits = zs }) loads.old loads.new) }
{
    if loads.len() == 1 {
        loads[0] += weights.sum(words);
        return Ok(());
    }
    if words.len() == 0 {
        return Ok(());
    }
    add_parts(reader, weights, words, loads)
}

// Does a Basic Period take more than most. Every load is looked at, several at once.
#[tactic(auto, using(crate::proofs::LoadLaws::some_here, crate::proofs::LoadLaws::some_next))]
fn some_above(loads: &[u32], most: u32) -> bool
    ensures { result ≡ some (length loads.now) (λ (j : ℕ). ltb most (get_or loads.now j 0)) }
{
    let mut found = false;
    for load in loads {
        if most < *load {
            found = true;
        }
    }
    found
}

// The load of each Basic Period, as far as the cycles so far tell them apart.
#[derive(Drop)]
pub(crate) struct Loads {
    bits: [u32; 1024],
    periods: usize,
}

impl Model for Loads {
    ghost use Rattle.std.specs.Prelude.{List, ℕ, take, ◌<◌, ◌≤◌};

    ghost Value = { List ℕ };

    ghost view = { λ l. take l.periods l.bits };

    ghost invariant = { λ l. (0 < l.periods) × (l.periods ≤ 1024) };
}

impl Loads {
    pub(crate) fn new() -> Loads
        ensures { result ≡ 0 ∷ [] }
    {
        Loads {
            bits: [0; 1024],
            periods: 1,
        }
    }

    // Before each cycle but the first there are twice as many Basic Periods: they repeat.
    #[tactic(auto, using(crate::proofs::CycleLaws::widen_first, crate::proofs::CycleLaws::widen_again))]
    pub(crate) fn widen(&mut self, cycle: usize)
        requires { 0 < cycle → length self.old ≤ 512 }
        ensures { self.new ≡ widened cycle self.old }
    {
        if 0 < cycle {
            repeat(&mut self.bits, self.periods);
            self.periods *= 2;
        }
    }

    // Reads the split numbers of a cycle with these words, and adds what its Subcycles weigh.
    pub(crate) fn add_cycle(
        &mut self,
        reader: &mut Reader,
        weights: &Weights,
        words: &[u16],
    ) -> Result<(), Refusal>
        requires few { length words.now ≤ 256 }
        requires small { IsSmall 10 self.old }
        ensures { (n : ℕ) → length self.old ≡ 2 ^ n → Reads result (left reader.new) (split_in rules n (length words.now) (left reader.old))
            (λ zs. AddsCycle weights.now.by_f_code (record { words = words.now; splits = zs }) self.old self.new) }
    {
        add_subcycles(reader, weights, words, &mut self.bits[..self.periods])
    }

    // Does some Basic Period have more than so many bit times.
    pub(crate) fn any_above(&self, most: u32) -> bool
        ensures { result ≡ some (length self.now) (λ (j : ℕ). ltb most (get_or self.now j 0)) }
    {
        some_above(&self.bits[..self.periods], most)
    }
}
