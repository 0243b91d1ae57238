// What words weigh: the bit times of their telegrams.
ghost use Rattle.std.specs.Prelude.{◌≡◌, ◌≤◌, ℕ, length, get_or};
ghost use Rattle.timing.specs.Timing.{telegram_bits};
ghost use Rattle.lists.specs.Weights.{Listable, weigh, WeightsOf};

use timing::telegram_bits;

// What a word with this F_code weighs.
fn weight(f_code: u8, gap: u16) -> u32
    requires { Listable f_code × (4 ≤ gap) × (gap ≤ 128) }
    ensures { (result ≡ telegram_bits f_code gap) × (result ≤ 458) }
{
    match telegram_bits(f_code, gap) {
        Ok(bits) => bits as u32,
        Err(_) => 0,
    }
}

// By F_code: no telegram takes more than 458 bit times.
#[derive(Clone, Copy)]
pub(crate) struct Weights {
    by_f_code: [u32; 16],
    ghost most: { (f : ℕ) → get_or by_f_code f 0 ≤ 458 },
}

impl Weights {
    // The weights of a list with this gap, of the six F_codes that may be listed.
    #[tactic(auto, using(crate::proofs::LoadLaws::weights_of))]
    pub(crate) fn of(gap: u16) -> Weights
        requires { (4 ≤ gap) × (gap ≤ 128) }
        ensures { WeightsOf gap result.by_f_code }
    {
        let mut by_f_code = [0u32; 16];
        by_f_code[0] = weight(0, gap);
        by_f_code[1] = weight(1, gap);
        by_f_code[2] = weight(2, gap);
        by_f_code[3] = weight(3, gap);
        by_f_code[4] = weight(4, gap);
        by_f_code[15] = weight(15, gap);
        Weights { by_f_code }
    }

    // What some words weigh.
    #[tactic(auto, using(crate::proofs::WordLaws::weigh_more, crate::proofs::WordLaws::weigh_fits, crate::proofs::WordLaws::all_weight))]
    pub(crate) fn sum(&self, words: &[u16]) -> u32
        requires { length words.now ≤ 256 }
        ensures { result ≡ weigh self.now.by_f_code words.now }
    {
        let mut sum: u32 = 0;
        for word in words {
            sum += self.by_f_code[(*word / 4096) as usize];
        }
        sum
    }
}
