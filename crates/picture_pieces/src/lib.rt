#![tactic(auto)]
// Pieces of a text, put one after the other into a lent slice of bytes. A piece that does not fit is counted and not written, so that one and the same walk
// measures a text, over a slice without room, and writes it. Assumes nothing.
ghost use Rattle.std.specs.Prelude.{◌≡◌, length};
ghost use Rattle.ledger_spec.specs.Decimals.{decimal, signed};
ghost use Rattle.picture_spec.specs.Text.{comma};
ghost use Rattle.picture_pieces.specs.Drawn.{either, Drawn};

// The largest place there is. Every slice is shorter, and past it nothing is counted.
const MOST: usize = 18446744073709551615;

// Puts a piece at a place; answers the place after it.
pub fn put(out: &mut [u8], at: usize, piece: &[u8]) -> usize
    ensures { Drawn out.old at piece.now out.new result }
{
    let n = piece.len();
    if MOST - at < n {
        return MOST;
    }
    if out.len() < at + n {
        return at + n;
    }
    out[at..at + n].copy_from_slice(piece);
    at + n
}

// One of two pieces.
pub fn put_either(out: &mut [u8], at: usize, which: bool, one: &[u8], other: &[u8]) -> usize
    ensures { Drawn out.old at (either which one.now other.now) out.new result }
{
    if which {
        return put(out, at, one);
    }
    put(out, at, other)
}

// The comma before item i of a list.
pub fn put_comma(out: &mut [u8], at: usize, i: u64) -> usize
    ensures { Drawn out.old at (comma i) out.new result }
{
    if i == 0 {
        return at;
    }
    put(out, at, b",")
}

// How many digits a number has. It calls itself once for each, so at most 20 deep.
fn digits(n: u64) -> usize
    ensures { result ≡ length (decimal n) }
{
    if n < 10 {
        return 1;
    }
    digits(n / 10) + 1
}

pub fn put_number(out: &mut [u8], at: usize, n: u64) -> usize
    ensures { Drawn out.old at (decimal n) out.new result }
{
    let d = digits(n);
    if MOST - at < d {
        return MOST;
    }
    if out.len() < at + d {
        return at + d;
    }
    text_decimals::put_number(out, at, n)
}

pub fn put_signed(out: &mut [u8], at: usize, z: i64) -> usize
    ensures { Drawn out.old at (signed z) out.new result }
{
    if z < 0 {
        let p = put(out, at, b"-");
        return put_number(out, p, ((-1 - z) as u64) + 1);
    }
    put_number(out, at, z as u64)
}
