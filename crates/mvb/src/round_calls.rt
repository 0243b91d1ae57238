// The event round and the search, as C calls them. A round is lent as six numbers: phase, M, C, requests, reads, unresolved.
ghost use Rattle.std.specs.Prelude.{◌≡◌, ◌≤◌, ltb, length};
ghost use Rattle.refusals.specs.Codes.{told_code};
ghost use Rattle.mvb.specs.Rounds.{phase_of, round_in, stored, start_answer, start_run, round_answer, round_run};
ghost use Rattle.mvb.specs.Inside.{AsHeard, ReadsStand};
ghost use Rattle.search.specs.Searches.{written};
ghost use Rattle.mvb.specs.Searches.{search_answer, search_requests};

use frames::LineAnswer;
use refusals::Refusal;
use rounds::{Counts, Phase, Round, Step};

// What a round's end is to C.
const END: u32 = 131072;

fn phase_of(number: u16) -> Phase
    ensures { result ≡ phase_of number }
{
    match number {
        0 => Phase::Asked,
        1 => Phase::Read,
        _ => Phase::Ended,
    }
}

// Whether a run is too short for a round.
fn is_short(run: &[u16]) -> bool
    ensures { result ≡ ltb (length run.now) 6 }
{
    run.len() < 6
}

// The round in a run.
#[tactic(auto, unfolding(crate::specs::Rounds::round_in))]
fn load(run: &[u16]) -> Round
    requires { 6 ≤ length run.now }
    ensures { result ≡ round_in run.now }
{
    Round {
        phase: phase_of(run[0]),
        m: run[1],
        c: run[2],
        counts: Counts {
            requests: run[3],
            reads: run[4],
            unresolved: run[5],
        },
    }
}

// The run with a round in it. Its reads change with a read alone, and are stored with it alone, last: with each step a
// whole round takes a tenth longer.
fn store(round: Round, run: &mut [u16])
    requires { (6 ≤ length run.old) × ReadsStand run.old round }
    ensures { run.new ≡ stored round run.old }
{
    run[0] = round.phase as u16;
    run[1] = round.m;
    run[2] = round.c;
    run[3] = round.counts.requests;
    run[5] = round.counts.unresolved;
    if let Phase::Read = round.phase {
        run[4] = round.counts.reads;
    }
}

// Starts a round: 6 for the parameter bits, then 4 for a run too short.
pub fn mvb_round_start(params: u16, run: &mut [u16]) -> u32
    ensures { (told_code result ≡ start_answer params (length run.old)) × (run.new ≡ start_run params run.old) }
{
    match Round::start(params) {
        Ok(Step::Next(round, word)) => {
            if is_short(run) {
                return Refusal::TooShort.code();
            }
            run[4] = round.counts.reads;
            store(round, run);
            word as u32
        }
        Ok(Step::End(_, _)) => END,
        Err(refusal) => refusal.code(),
    }
}

// What a round must know of the bytes that came: nothing after a read, whose answer it does not look at; and a word with
// another F_code than 12 is no good reply, as a collision is none, so that its check sequence need not be computed: without
// that a whole round takes a tenth to a half longer. The phase stays a number here and the lengths are tests: with a Phase
// a step takes a fifth longer, with a match of the bytes a tenth.
#[tactic(auto, using(crate::proofs::RoundLaws::heard_read, crate::proofs::RoundLaws::heard_none, crate::proofs::RoundLaws::heard_many, crate::proofs::RoundLaws::heard_other, crate::proofs::RoundLaws::heard_line))]
fn heard(phase: u16, bytes: &[u8]) -> LineAnswer
    ensures { AsHeard phase bytes.now result }
{
    if phase == 1 {
        return LineAnswer::Silence;
    }
    if bytes.len() != 3 {
        if bytes.len() != 0 {
            return LineAnswer::Collision;
        }
        return LineAnswer::Silence;
    }
    if bytes[0] / 16 != 12 {
        return LineAnswer::Collision;
    }
    frames::line_answer(bytes)
}

// Takes the bytes that came for the word handed out last: 4 for a run too short, before all else.
pub fn mvb_round_answer(run: &mut [u16], bytes: &[u8]) -> u32
    ensures { (told_code result ≡ round_answer run.old bytes.now) × (run.new ≡ round_run run.old bytes.now) }
{
    if is_short(run) {
        return Refusal::TooShort.code();
    }
    // The phase as C lends it: each number above 1 has ended.
    if 1 < run[0] {
        return END;
    }
    let answer = heard(run[0], bytes);
    match load(run).answer(answer) {
        Ok(Step::Next(next, word)) => {
            store(next, run);
            word as u32
        }
        Ok(Step::End(last, _)) => {
            store(last, run);
            END
        }
        Err(refusal) => refusal.code(),
    }
}

// Searches a lent set of 512 bytes: the answer is the reads, the requests go to a number that is lent.
pub fn mvb_search(set: &[u8], out: &mut [u16], requests: &mut u16) -> u32
    ensures answer { told_code result ≡ search_answer set.now (length out.old) }
    ensures order { out.new ≡ written set.now out.old }
    ensures number { requests.new ≡ search_requests set.now (length out.old) requests.old }
{
    match search::search_set(set, out) {
        Ok(found) => {
            *requests = found.requests;
            found.reads as u32
        }
        Err(refusal) => refusal.code(),
    }
}
