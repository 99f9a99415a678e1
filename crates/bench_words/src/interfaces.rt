// The two parts of an interface that have a code: its parent, and its marks, a bit each. Assumes nothing.
ghost use Rattle.std.specs.Prelude.{◌≡◌, ◌≤◌};
ghost use Rattle.bench_words.specs.Codec.{pick, up_of, up_word, marks_of, marks_word};

use crate::Marks;

pub fn up_of(w: u64) -> Option<u8>
    ensures { result ≡ up_of w }
{
    if w == 0 {
        return None;
    }
    Some(((w - 1) % 8) as u8)
}

pub fn up_word(u: Option<u8>) -> u64
    ensures { result ≡ up_word u }
{
    match u {
        None => 0,
        Some(p) => (p as u64) + 1,
    }
}

pub fn marks_of(w: u64) -> Marks
    ensures { result ≡ marks_of w }
{
    Marks {
        fills: w % 2 == 1,
        floored: w / 2 % 2 == 1,
        plain: w / 4 % 2 == 1,
    }
}

// A bit that is there or not.
fn bit(there: bool, w: u64) -> u64
    ensures { (result ≡ pick there w 0) × (result ≤ w) }
{
    if there {
        return w;
    }
    0
}

pub fn marks_word(m: Marks) -> u64
    ensures { result ≡ marks_word m }
{
    bit(m.fills, 1) + bit(m.floored, 2) + bit(m.plain, 4)
}
