// Master and Slave Frames as bytes, and what the line answers.
#![tactic(auto)]

mod blocks;
mod shapes;

ghost use Rattle.std.specs.Prelude.{◌≡◌, length};
ghost use Rattle.refusals.specs.Told.{told, single};
ghost use Rattle.frames.specs.Master.{master_read, master_write, master_write_out};
ghost use Rattle.frames.specs.Slave.{slave_read, slave_read_out, slave_write, slave_write_out};
ghost use Rattle.frames.specs.Line.{line_answer};
ghost use Rattle.frames.specs.Answers.{told_line};

use refusals::Refusal;

// What the line answers to a Master Frame.
#[derive(Clone, Copy)]
pub enum LineAnswer {
    Silence,
    Reply(u16),
    Collision,
}

// Reads a Master Frame: a word and its check sequence.
#[tactic(auto, unfolding(crate::specs::Master::master_read))]
pub fn master_read(frame: &[u8]) -> Result<u16, Refusal>
    ensures { told single result ≡ master_read frame.now }
{
    let &[high, low, check] = frame else {
        return Err(Refusal::WrongLength);
    };
    if checks::check_of(&frame[..2]) != check {
        return Err(Refusal::WrongCheck);
    }
    let word = (high as u16) * 256 + low as u16;
    if shapes::reserved(word) {
        return Err(Refusal::ReservedFcode);
    }
    Ok(word)
}

// Writes the Master Frame of a word at the start of `out`.
#[tactic(auto, using(crate::proofs::Order::word_written), unfolding(crate::specs::Master::master_write, crate::specs::Master::master_write_out, crate::specs::Master::master_frame))]
pub fn master_write(word: u16, out: &mut [u8]) -> Result<usize, Refusal>
    ensures { (told single result ≡ master_write word (length out.old)) × (out.new ≡ master_write_out word out.old) }
{
    if shapes::reserved(word) {
        return Err(Refusal::ReservedFcode);
    }
    if out.len() < 3 {
        return Err(Refusal::TooShort);
    }
    out[0] = (word / 256) as u8;
    out[1] = (word % 256) as u8;
    out[2] = checks::check_of_word(word);
    Ok(3)
}

// Reads a Slave Frame of the expected F_code: its data goes to the start of `out`.
#[tactic(auto, unfolding(crate::specs::Slave::slave_read, crate::specs::Slave::slave_read_out, crate::specs::Slave::slave_data))]
pub fn slave_read(f_code: u8, frame: &[u8], out: &mut [u8]) -> Result<usize, Refusal>
    ensures { (told single result ≡ slave_read f_code frame.now (length out.old)) × (out.new ≡ slave_read_out f_code frame.now out.old) }
{
    let Some(shape) = shapes::shape_of(f_code) else {
        return Err(Refusal::ReservedFcode);
    };
    if frame.len() != shape.whole {
        return Err(Refusal::WrongLength);
    }
    if !blocks::all_right(frame, shape.count, shape.size) {
        return Err(Refusal::WrongCheck);
    }
    if out.len() < shape.data {
        return Err(Refusal::TooShort);
    }
    blocks::copy_blocks(frame, shape.count, shape.size, out);
    Ok(shape.data)
}

// Writes the Slave Frame of an F_code and its data at the start of `out`.
#[tactic(auto, unfolding(crate::specs::Slave::slave_write, crate::specs::Slave::slave_write_out, crate::specs::Slave::slave_frame))]
pub fn slave_write(f_code: u8, data: &[u8], out: &mut [u8]) -> Result<usize, Refusal>
    ensures { (told single result ≡ slave_write f_code «data».now (length out.old)) × (out.new ≡ slave_write_out f_code «data».now out.old) }
{
    let Some(shape) = shapes::shape_of(f_code) else {
        return Err(Refusal::ReservedFcode);
    };
    if data.len() != shape.data {
        return Err(Refusal::WrongLength);
    }
    if out.len() < shape.whole {
        return Err(Refusal::TooShort);
    }
    blocks::write_blocks(data, shape.count, shape.size, out);
    Ok(shape.whole)
}

// What the bytes that came after a Master Frame answer. A word with a reserved F_code is a reply too.
#[tactic(auto, unfolding(crate::specs::Line::answer_of))]
pub fn line_answer(bytes: &[u8]) -> LineAnswer
    ensures { told_line result ≡ line_answer bytes.now }
{
    match *bytes {
        [] => LineAnswer::Silence,
        [high, low, check] if checks::check_of(&bytes[..2]) == check => {
            LineAnswer::Reply((high as u16) * 256 + low as u16)
        }
        _ => LineAnswer::Collision,
    }
}
