#![tactic(auto)]
// Numbers as text: a field read as a number, and a number written at a place of a lent slice, by ledger_spec's `Decimals`.
// Assumes nothing.
ghost use Rattle.std.specs.Prelude.{◌≡◌, ◌+◌, ◌≤◌, ◌<◌, length, pos, neg_ℤ};
ghost use Rattle.ledger_spec.specs.Decimals.{after_digits, between, number_within, integer, decimal, signed};
ghost use Rattle.text_decimals.specs.Read.{number_of, integer_of};
ghost use Rattle.text_decimals.specs.Wrote.{Wrote};

// What digits say, leading zeros allowed, if it lies in a range. It never passes the range's end on the way, so no sum can overflow.
fn value_in(f: &[u8], least: u64, most: u64) -> Option<u64>
    ensures { number_of result ≡ between least most (after_digits 0 f.now) }
{
    let mut n: u64 = 0;
    for &c in f {
        if c < b'0' || b'9' < c {
            return None;
        }
        if most / 10 < n {
            return None;
        }
        let d = (c - b'0') as u64;
        if most - n * 10 < d {
            return None;
        }
        n = n * 10 + d;
    }
    if n < least {
        return None;
    }
    Some(n)
}

// The number that a field says, if it lies in a range, both ends included.
pub fn number_in(f: &[u8], least: u64, most: u64) -> Option<u64>
    ensures { number_of result ≡ number_within least most f.now }
{
    if f.len() == 0 {
        return None;
    }
    if f.len() == 1 {
        return value_in(f, least, most);
    }
    if f[0] == b'0' {
        return None;
    }
    value_in(f, least, most)
}

fn plus(n: u64) -> i64
    requires { n < 9223372036854775808 }
    ensures { result ≡ pos n }
{
    n as i64
}

// -n. The least i64 has no positive twin, so what is turned round is n - 1.
fn minus(n: u64) -> i64
    requires { (0 < n) × (n ≤ 9223372036854775808) }
    ensures { result ≡ neg_ℤ (pos n) }
{
    -1 - ((n - 1) as i64)
}

// The signed 64-bit number that a field says.
pub fn integer_in(f: &[u8]) -> Option<i64>
    ensures { integer_of result ≡ integer f.now }
{
    if f.len() == 0 {
        return None;
    }
    if f[0] == b'-' {
        let n = number_in(&f[1..], 1, 9223372036854775808)?;
        return Some(minus(n));
    }
    let n = number_in(f, 0, 9223372036854775807)?;
    Some(plus(n))
}

// Writes the decimal of n at a place; answers the place after it. It calls itself once for each digit, so at most 20 deep.
pub fn put_number(out: &mut [u8], at: usize, n: u64) -> usize
    requires { at + length (decimal n) ≤ length out.old }
    ensures { Wrote out.old at (decimal n) out.new result }
{
    if n < 10 {
        out[at] = b'0' + (n as u8);
        return at + 1;
    }
    let p = put_number(out, at, n / 10);
    out[p] = b'0' + ((n % 10) as u8);
    p + 1
}

// Writes a signed number at a place; answers the place after it.
pub fn put_signed(out: &mut [u8], at: usize, z: i64) -> usize
    requires { at + length (signed z) ≤ length out.old }
    ensures { Wrote out.old at (signed z) out.new result }
{
    if z < 0 {
        out[at] = b'-';
        return put_number(out, at + 1, ((-1 - z) as u64) + 1);
    }
    put_number(out, at, z as u64)
}
