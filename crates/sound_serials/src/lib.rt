#![tactic(auto)]
// Whether the serials of present nodes are all different: a blank slot has serial 0, and any other serial stands once. Everything here only
// reads, and any words may be lent. Assumes nothing.
ghost use Rattle.std.specs.Prelude.{◌≡◌, ◌<◌, ◌≤◌, length};
ghost use Rattle.sound_trees.specs.Below.{all_to};
ghost use Rattle.sound_serials.specs.Different.{serial_at, unlike, once_test, Marks};

use bench_words::WORDS;

fn serial_at(b: &[u64; WORDS], k: usize) -> u32
    requires { k < 512 }
    ensures { result ≡ serial_at b.now k }
{
    let n = bench_words::load_node(b, k);
    n.serial.0
}

// No slot before k has this serial.
fn is_new(b: &[u64; WORDS], k: usize, serial: u32) -> bool
    requires { k ≤ 512 }
    ensures { result ≡ all_to (unlike b.now serial) k }
{
    (0..k).all(|j: usize| serial_at(b, j) != serial)
}

fn is_once(b: &[u64; WORDS], k: usize) -> bool
    requires { k < 512 }
    ensures { result ≡ once_test b.now k }
{
    let serial = serial_at(b, k);
    if serial == 0 {
        return true;
    }
    is_new(b, k, serial)
}

// Each slot against all before it.
fn are_compared(b: &[u64; WORDS]) -> bool
    ensures { result ≡ all_to (once_test b.now) 512 }
{
    (0..512).all(|k: usize| is_once(b, k))
}

fn none(s: &[u8]) {}

// Costs nothing when it runs, and tells its caller's proof the array's length.
fn all_marks(t: &[u8; 512])
    ensures { length t.now ≡ 512 }
{
    none(t);
}

// Marks the remainder of a serial, unless it is marked already. A serial of 0 has no mark.
fn mark(t: &mut [u8; 512], serial: u32) -> bool
    requires { length t.old ≡ 512 }
    ensures { Marks t.old serial t.new result }
{
    if serial == 0 {
        return true;
    }
    let i = (serial % 512) as usize;
    if t[i] != 0 {
        return false;
    }
    t[i] = 1;
    true
}

// Serials whose remainders differ are different, and those of nodes made since one clear of all do: at most 512 are. Only where two remainders meet
// is each compared with all before it.
pub fn are_different(b: &[u64; WORDS]) -> bool
    ensures { result ≡ all_to (once_test b.now) 512 }
{
    let mut t = [0u8; 512];
    all_marks(&t);
    for k in 0..512 {
        let serial = serial_at(b, k);
        if !mark(&mut t, serial) {
            return are_compared(b);
        }
    }
    true
}
