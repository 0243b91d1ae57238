// How the data of an F_code lies in a Slave Frame.
ghost use Rattle.std.specs.Prelude.{IsTrue, MatchOption, ◌≡◌};
ghost use Rattle.rows.specs.Rows.{reserved};
ghost use Rattle.frames.specs.Words.{f_code_of};
ghost use Rattle.frames.specs.Shapes.{IsShape};

// Whether the F_code of a word is reserved.
#[tactic(auto, using(rows::proofs::Rows::reserved_is))]
pub(crate) fn reserved(word: u16) -> bool
    ensures { result ≡ reserved (f_code_of word) }
{
    rows::row_of((word / 4096) as u8)[3] == 0
}

// The bytes of the data and of the whole frame; how many blocks it has, and of how many bytes of data each.
#[derive(Clone, Copy)]
pub(crate) struct Shape {
    pub(crate) data: usize,
    pub(crate) whole: usize,
    pub(crate) count: usize,
    pub(crate) size: usize,
}

// The row is looked up once; what else a frame needs follows from it.
pub(crate) fn shape_of(f_code: u8) -> Option<Shape>
    ensures { MatchOption result (IsTrue (reserved f_code)) (IsShape f_code) }
{
    let [bits, bytes, _, allowed] = rows::row_of(f_code);
    if allowed == 0 {
        return None;
    }
    let data = (bits / 8) as usize;
    let whole = bytes as usize;
    Some(Shape {
        data,
        whole,
        count: whole - data,
        size: if data < 8 { data } else { 8 },
    })
}
