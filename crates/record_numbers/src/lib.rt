#![tactic(auto)]
// Numbers of 1, 2, 4 and 8 bytes, low byte first, read at a place of a slice and written there, by record_spec's `Numbers` and `Places`.
// Assumes nothing.
ghost use Rattle.std.specs.Prelude.{◌≡◌, ◌+◌, ◌≤◌, ◌<◌, length};
ghost use Rattle.text_decimals.specs.Wrote.{Wrote};
ghost use Rattle.record_spec.specs.Numbers.{bytes};
ghost use Rattle.record_spec.specs.Places.{at as «number_at»};

// The byte at a place.
pub fn byte_at(s: &[u8], p: usize) -> u64
    requires { p + 1 ≤ length s.now }
    ensures { (result ≡ «number_at» 1 s.now p) × (result < 256) }
{
    s[p] as u64
}

// The number in the 2 bytes from a place on.
pub fn two_at(s: &[u8], p: usize) -> u64
    requires { p + 2 ≤ length s.now }
    ensures { (result ≡ «number_at» 2 s.now p) × (result < 65536) }
{
    let low = byte_at(s, p);
    let high = byte_at(s, p + 1);
    low + 256 * high
}

// The number in the 4 bytes from a place on.
pub fn four_at(s: &[u8], p: usize) -> u64
    requires { p + 4 ≤ length s.now }
    ensures { (result ≡ «number_at» 4 s.now p) × (result < 4294967296) }
{
    let low = two_at(s, p);
    let high = two_at(s, p + 2);
    low + 65536 * high
}

// The number in the 8 bytes from a place on.
pub fn eight_at(s: &[u8], p: usize) -> u64
    requires { p + 8 ≤ length s.now }
    ensures { (result ≡ «number_at» 8 s.now p) × (result < 18446744073709551616) }
{
    let low = four_at(s, p);
    let high = four_at(s, p + 4);
    low + 4294967296 * high
}

// Writes the low byte of a number at a place; answers the place after it.
pub fn put_byte(out: &mut [u8], at: usize, n: u64) -> usize
    requires { at + 1 ≤ length out.old }
    ensures { Wrote out.old at (bytes 1 n) out.new result }
{
    out[at] = (n % 256) as u8;
    at + 1
}

// Writes the low 2 bytes of a number at a place; answers the place after them.
pub fn put_two(out: &mut [u8], at: usize, n: u64) -> usize
    requires { at + 2 ≤ length out.old }
    ensures { Wrote out.old at (bytes 2 n) out.new result }
{
    let p = put_byte(out, at, n);
    put_byte(out, p, n / 256)
}

// Writes the low 4 bytes of a number at a place; answers the place after them.
pub fn put_four(out: &mut [u8], at: usize, n: u64) -> usize
    requires { at + 4 ≤ length out.old }
    ensures { Wrote out.old at (bytes 4 n) out.new result }
{
    let p = put_two(out, at, n);
    put_two(out, p, n / 256 / 256)
}

// Writes the 8 bytes of a number at a place; answers the place after them.
pub fn put_eight(out: &mut [u8], at: usize, n: u64) -> usize
    requires { at + 8 ≤ length out.old }
    ensures { Wrote out.old at (bytes 8 n) out.new result }
{
    let p = put_four(out, at, n);
    put_four(out, p, n / 256 / 256 / 256 / 256)
}
