// Frames, as C calls them.
ghost use Rattle.std.specs.Prelude.{◌≡◌, length};
ghost use Rattle.refusals.specs.Told.{told, single};
ghost use Rattle.refusals.specs.Codes.{told_code};
ghost use Rattle.checks.specs.Check.{check_of};
ghost use Rattle.frames.specs.Master.{master_read, master_write, master_write_out};
ghost use Rattle.frames.specs.Slave.{slave_read, slave_read_out, slave_write, slave_write_out};
ghost use Rattle.mvb.specs.Values.{OneSmallValue};

use refusals::Refusal;

// The answer of a call that fills a lent output. A frame has few bytes, so the number fits. `ports` has the like: one for
// both would be a public function with a promise of its own.
fn code_of(answer: Result<usize, Refusal>) -> u32
    requires { OneSmallValue (told single answer) }
    ensures { told_code result ≡ told single answer }
{
    match answer {
        Ok(bytes) => bytes as u32,
        Err(refusal) => refusal.code(),
    }
}

pub fn mvb_check_of(block: &[u8]) -> u32
    ensures { result ≡ check_of block.now }
{
    checks::check_of(block) as u32
}

#[tactic(auto, using(refusals::proofs::Codes::value_told, refusals::proofs::Codes::refusal_told))]
pub fn mvb_master_read(frame: &[u8]) -> u32
    ensures { told_code result ≡ master_read frame.now }
{
    match frames::master_read(frame) {
        Ok(word) => word as u32,
        Err(refusal) => refusal.code(),
    }
}

pub fn mvb_master_write(word: u16, out: &mut [u8]) -> u32
    ensures { (told_code result ≡ master_write word (length out.old)) × (out.new ≡ master_write_out word out.old) }
{
    code_of(frames::master_write(word, out))
}

pub fn mvb_slave_read(f_code: u8, frame: &[u8], out: &mut [u8]) -> u32
    ensures { (told_code result ≡ slave_read f_code frame.now (length out.old)) × (out.new ≡ slave_read_out f_code frame.now out.old) }
{
    code_of(frames::slave_read(f_code, frame, out))
}

pub fn mvb_slave_write(f_code: u8, data: &[u8], out: &mut [u8]) -> u32
    ensures { (told_code result ≡ slave_write f_code «data».now (length out.old)) × (out.new ≡ slave_write_out f_code «data».now out.old) }
{
    code_of(frames::slave_write(f_code, data, out))
}
