// What C calls of `mvb::frame_calls`: each call has the clauses of the function that it stands for.
ghost use Rattle.std.specs.Prelude.{◌≡◌, length};
ghost use Rattle.refusals.specs.Codes.{told_code};
ghost use Rattle.checks.specs.Check.{check_of};
ghost use Rattle.frames.specs.Master.{master_read, master_write, master_write_out};
ghost use Rattle.frames.specs.Slave.{slave_read, slave_read_out, slave_write, slave_write_out};

// The check sequence of a block.
#[unsafe(no_mangle)]
pub extern "C" fn mvb_check_of(block: &[u8]) -> u32
    ensures { result ≡ check_of block.now }
{
    mvb::frame_calls::mvb_check_of(block)
}

#[unsafe(no_mangle)]
pub extern "C" fn mvb_master_read(frame: &[u8]) -> u32
    ensures { told_code result ≡ master_read frame.now }
{
    mvb::frame_calls::mvb_master_read(frame)
}

#[unsafe(no_mangle)]
pub extern "C" fn mvb_master_write(word: u16, out: &mut [u8]) -> u32
    ensures { (told_code result ≡ master_write word (length out.old)) × (out.new ≡ master_write_out word out.old) }
{
    mvb::frame_calls::mvb_master_write(word, out)
}

#[unsafe(no_mangle)]
pub extern "C" fn mvb_slave_read(f_code: u8, frame: &[u8], out: &mut [u8]) -> u32
    ensures { (told_code result ≡ slave_read f_code frame.now (length out.old)) × (out.new ≡ slave_read_out f_code frame.now out.old) }
{
    mvb::frame_calls::mvb_slave_read(f_code, frame, out)
}

#[unsafe(no_mangle)]
pub extern "C" fn mvb_slave_write(f_code: u8, data: &[u8], out: &mut [u8]) -> u32
    ensures { (told_code result ≡ slave_write f_code «data».now (length out.old)) × (out.new ≡ slave_write_out f_code «data».now out.old) }
{
    mvb::frame_calls::mvb_slave_write(f_code, data, out)
}
