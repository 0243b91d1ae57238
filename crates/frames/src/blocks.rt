// Blocks of `size` bytes of data, each followed by its check sequence. The loops are called with the constants 2 and 8 too:
// with the size alone frames of 16 and 256 bits fell behind the C peer. `count` and `size` go together without a struct:
// each loop holds for any two that fit the frame.
ghost use Rattle.std.specs.Prelude.{◌≡◌, ◌++◌, ◌+◌, ◌*◌, ◌≤◌, length, drop};
ghost use Rattle.frames.specs.Blocks.{all_right, data_in, framed};

// Whether the check sequence of each block is right.
pub(crate) fn all_right(frame: &[u8], count: usize, size: usize) -> bool
    requires { (size ≤ 8) × (count * (size + 1) ≤ length frame.now) }
    ensures { result ≡ all_right count size frame.now }
{
    match size {
        2 => right_run(frame, count, 2),
        8 => right_run(frame, count, 8),
        _ => right_run(frame, count, size),
    }
}

#[inline(always)]
fn right_run(frame: &[u8], count: usize, size: usize) -> bool
    requires { (size ≤ 8) × (count * (size + 1) ≤ length frame.now) }
    ensures { result ≡ all_right count size frame.now }
{
    for i in 0..count {
        let at = i * (size + 1);
        let end = at + size;
        if checks::check_of(&frame[at..end]) != frame[end] {
            return false;
        }
    }
    true
}

// Copies the data of each block, to the start of `out`.
pub(crate) fn copy_blocks(frame: &[u8], count: usize, size: usize, out: &mut [u8])
    requires { (size ≤ 8) × (count * (size + 1) ≤ length frame.now) × (count * size ≤ length out.old) }
    ensures { out.new ≡ data_in count size frame.now ++ drop (count * size) out.old }
{
    match size {
        2 => copy_run(frame, count, 2, out),
        8 => copy_run(frame, count, 8, out),
        _ => copy_run(frame, count, size, out),
    }
}

#[inline(always)]
fn copy_run(frame: &[u8], count: usize, size: usize, out: &mut [u8])
    requires { (size ≤ 8) × (count * (size + 1) ≤ length frame.now) × (count * size ≤ length out.old) }
    ensures { out.new ≡ data_in count size frame.now ++ drop (count * size) out.old }
{
    for i in 0..count {
        let at = i * (size + 1);
        let to = i * size;
        copy_block(&frame[at..at + size], &mut out[to..to + size]);
    }
}

// Copies a block. All its bytes are read before one is written, so that they can move at once.
fn copy_block(from: &[u8], to: &mut [u8])
    requires { length from.now ≡ length to.old }
    ensures { to.new ≡ from.now }
{
    match *from {
        [a, b] => {
            to[0] = a;
            to[1] = b;
        }
        [a, b, c, d, e, f, g, h] => {
            to[0] = a;
            to[1] = b;
            to[2] = c;
            to[3] = d;
            to[4] = e;
            to[5] = f;
            to[6] = g;
            to[7] = h;
        }
        _ => runs::copy_front(from, to),
    }
}

// Writes each block of the data and its check sequence, at the start of `out`.
pub(crate) fn write_blocks(data: &[u8], count: usize, size: usize, out: &mut [u8])
    requires { (size ≤ 8) × (count * size ≤ length «data».now) × (count * (size + 1) ≤ length out.old) }
    ensures { out.new ≡ framed count size «data».now ++ drop (count * (size + 1)) out.old }
{
    match size {
        2 => write_run(data, count, 2, out),
        8 => write_run(data, count, 8, out),
        _ => write_run(data, count, size, out),
    }
}

#[inline(always)]
fn write_run(data: &[u8], count: usize, size: usize, out: &mut [u8])
    requires { (size ≤ 8) × (count * size ≤ length «data».now) × (count * (size + 1) ≤ length out.old) }
    ensures { out.new ≡ framed count size «data».now ++ drop (count * (size + 1)) out.old }
{
    for i in 0..count {
        let at = i * size;
        let to = i * (size + 1);
        let end = to + size;
        let block = &data[at..at + size];
        copy_block(block, &mut out[to..end]);
        out[end] = checks::check_of(block);
    }
}
