#![tactic(auto)]
// An answer of the text program: four numbers as a line of text, by ledger_spec's `Program.text_of`. Assumes nothing.
ghost use Rattle.std.specs.Prelude.{◌∷◌, ◌+◌, ◌≤◌, length};
ghost use Rattle.text_decimals.specs.Wrote.{Wrote};
ghost use Rattle.ledger_spec.specs.Decimals.{decimal, signed};
ghost use Rattle.ledger_spec.specs.Program.{text_of};

// The most bytes that an answer has, its newline counted: 3, 11, 21, 21 and 1.
pub const MOST: usize = 57;

fn spaced(out: &mut [u8], at: usize, n: u64) -> usize
    requires { at + length (32 ∷ decimal n) ≤ length out.old }
    ensures { Wrote out.old at (32 ∷ decimal n) out.new result }
{
    out[at] = b' ';
    text_decimals::put_number(out, at + 1, n)
}

fn spaced_signed(out: &mut [u8], at: usize, z: i64) -> usize
    requires { at + length (32 ∷ signed z) ≤ length out.old }
    ensures { Wrote out.old at (32 ∷ signed z) out.new result }
{
    out[at] = b' ';
    text_decimals::put_signed(out, at + 1, z)
}

// Writes an answer at a place that has room for it; answers the place after it.
fn put_answer(out: &mut [u8], at: usize, number: u64, serial: u64, speed: i64, sum: i64) -> usize
    requires { at + length (text_of (number, serial, speed, sum)) ≤ length out.old }
    ensures { Wrote out.old at (text_of (number, serial, speed, sum)) out.new result }
{
    let a = text_decimals::put_number(out, at, number);
    let b = spaced(out, a, serial);
    let d = spaced_signed(out, b, speed);
    let e = spaced_signed(out, d, sum);
    out[e] = b'\n';
    e + 1
}

// Writes an answer at a place that has 57 bytes free, as many as the longest takes; answers the place after it.
pub fn write_answer(
    out: &mut [u8],
    at: usize,
    number: u8,
    serial: u32,
    speed: i64,
    sum: i64,
) -> usize
    requires { at + 57 ≤ length out.old }
    ensures { Wrote out.old at (text_of (number, serial, speed, sum)) out.new result }
{
    let n = number as u64;
    let k = serial as u64;
    put_answer(out, at, n, k, speed, sum)
}
