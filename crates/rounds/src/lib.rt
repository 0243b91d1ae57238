// The event round: which devices have an event, asked for group by group.
#![tactic(auto)]

mod words;

ghost use Rattle.std.specs.Prelude.{◌≡◌, true, ◌+◌, ◌≤◌};
ghost use Rattle.refusals.specs.Told.{told};
ghost use Rattle.groups.specs.Groups.{is_group, over};
ghost use Rattle.rounds.specs.Rounds.{ask as askOf, stand, go_on, heard, judge, broken as brokenOf, one_request, one_read, round, step_of, start_of};
ghost use Rattle.rounds.specs.Inside.{Sound, good_answer, resumed};
ghost use Rattle.rounds.specs.Told.{step_values};

use frames::LineAnswer;
use refusals::Refusal;

// What the round waits for: the answer to a request, the answer to a read, or nothing any more.
#[derive(Clone, Copy)]
pub enum Phase {
    Asked,
    Read,
    Ended,
}

#[derive(Clone, Copy)]
pub struct Counts {
    pub requests: u16,
    pub reads: u16,
    pub unresolved: u16,
}

// A round at the group {m, c}, two numbers as C lends them.
#[derive(Clone, Copy)]
pub struct Round {
    pub phase: Phase,
    pub m: u16,
    pub c: u16,
    pub counts: Counts,
}

// The round and its next word; or the round that has ended, and its three counts, as the rules name what a step hands back.
#[derive(Clone, Copy)]
pub enum Step {
    Next(Round, u16),
    End(Round, Counts),
}

impl Round {
    // A round that hands out the request for all devices, over these parameter bits.
    #[tactic(auto, unfolding(crate::specs::Rounds::start_of))]
    pub fn start(params: u16) -> Result<Step, Refusal>
        ensures { told step_values result ≡ told step_values (start_of params) }
    {
        if 4095 < params {
            return Err(Refusal::OutOfRange);
        }
        let round = Round {
            phase: Phase::Asked,
            m: 12,
            c: 0,
            counts: Counts {
                requests: 0,
                reads: 0,
                unresolved: 0,
            },
        };
        Ok(Step::Next(round, words::GENERAL_EVENT + params))
    }

    // Takes the line's answer to the word that was handed out last.
    #[tactic(auto, unfolding(crate::specs::Rounds::step_by))]
    pub fn answer(self, answer: LineAnswer) -> Result<Step, Refusal>
        ensures { told step_values result ≡ told step_values (step_of self answer) }
    {
        match self.phase {
            Phase::Ended => Ok(Step::End(self, self.counts)),
            Phase::Read => {
                if self.broken() {
                    return Err(Refusal::ImpossibleRound);
                }
                self.resume(answer)
            }
            Phase::Asked => {
                if 8190 < self.counts.requests || self.broken() {
                    return Err(Refusal::ImpossibleRound);
                }
                Ok(self.take(answer))
            }
        }
    }

    // The answer to a request, which counts now. Neither silence nor a good reply: the lower half first, the upper
    // follows it; or one device is left unresolved.
    #[tactic(auto, using(crate::proofs::Steps::lower_is_group, crate::proofs::Steps::m_low))]
    fn take(mut self, answer: LineAnswer) -> Step
        requires { Sound self }
        ensures { result ≡ heard (judge self.m self.c answer) self.m self.c (one_request self.counts) }
    {
        self.counts.requests += 1;
        match answer {
            LineAnswer::Silence => {}
            LineAnswer::Reply(word) if self.is_good(answer) => return self.read(word),
            LineAnswer::Reply(_) | LineAnswer::Collision => {
                if self.m != 0 {
                    return self.ask(self.m - 1, self.c);
                }
                self.counts.unresolved += 1;
            }
        }
        self.next()
    }

    // The answer to a read, whatever it is, though each step matches it: on to what follows. A full round cannot ask any more
    // and can only end.
    fn resume(self, answer: LineAnswer) -> Result<Step, Refusal>
        requires { is_group self.m self.c ≡ true }
        ensures { result ≡ resumed self.m self.c self.counts }
    {
        let step = match answer {
            LineAnswer::Silence | LineAnswer::Reply(_) | LineAnswer::Collision => self.next(),
        };
        match step {
            Step::Next(_, _) if 8190 < self.counts.requests => Err(Refusal::ImpossibleRound),
            step => Ok(step),
        }
    }

    // Whether the answer is a good reply to the request for {m, c}.
    fn is_good(self, answer: LineAnswer) -> bool
        ensures { result ≡ good_answer self.m self.c answer }
    {
        let LineAnswer::Reply(word) = answer else {
            return false;
        };
        word / 4096 == 12 && groups::in_group(self.m, self.c, word % 4096)
    }

    // A good reply: its word is sent as a Master Frame.
    fn read(mut self, word: u16) -> Step
        requires { self.counts.reads + 1 ≤ 65535 }
        ensures { result ≡ Step.Next (round Phase.Read self.m self.c (one_read self.counts)) word }
    {
        self.phase = Phase::Read;
        self.counts.reads += 1;
        Step::Next(self, word)
    }

    // Goes on. The highest zero of c marks the lower half whose upper one is still to be asked; above has a one where c
    // has a zero.
    #[tactic(auto, using(crate::proofs::Steps::all_ones, crate::proofs::Steps::place_low, crate::proofs::Steps::upper_follows, crate::proofs::Steps::upper_is_group))]
    fn next(self) -> Step
        requires { is_group self.m self.c ≡ true }
        ensures { result ≡ go_on self.m self.c self.counts }
    {
        let above = groups::bound(self.m) - 1 - self.c;
        if above == 0 {
            return self.end();
        }
        let place = 15 - above.leading_zeros();
        let half = 1u16 << place;
        self.ask(11 - place as u16, self.c % half + half)
    }

    // Hands out the request for the group {m, c}, m at most 11. Here and at the end the fields are set one by one: a round
    // made from the old one by `..self` takes a tenth longer.
    fn ask(mut self, m: u16, c: u16) -> Step
        requires { (is_group m c ≡ true) × (m ≤ 11) }
        ensures { result ≡ askOf m c self.counts }
    {
        self.phase = Phase::Asked;
        self.m = m;
        self.c = c;
        Step::Next(self, words::group_word(m, c))
    }

    // Ends the round.
    fn end(mut self) -> Step
        ensures { result ≡ stand over self.counts }
    {
        self.phase = Phase::Ended;
        self.m = 12;
        self.c = 0;
        Step::End(self, self.counts)
    }

    // Whether {m, c} is no group, or reads and unresolved devices are more than the requests.
    fn broken(self) -> bool
        ensures { result ≡ brokenOf self }
    {
        let counts = self.counts;
        !groups::is_group(self.m, self.c)
            || (counts.requests as u32) < counts.reads as u32 + counts.unresolved as u32
    }
}
