#![tactic(auto)]
// Obstacles and groups as lent words, in the forms of include/dual_ledger.h: five words read, tested and written, and stops that move. An obstacle is its
// five words, and nothing is decoded. Assumes nothing.
ghost use Rattle.std.specs.Prelude.{◌≡◌, ◌+◌, ◌≤◌, length};
ghost use Rattle.std.proofs.lemmas.List.Edits.{sets};
ghost use Rattle.group_lent.specs.Forms.{length_of, same_hand, five, five_words, is_form, five_at};
ghost use Rattle.group_lent.specs.Moves.{slid};

use bench_words::PAST_HANDLES;

pub const OBSTACLE: usize = 5;

pub const GROUP: usize = 1413;

// An obstacle's words, or a group's first five.
#[derive(Clone, Copy)]
pub struct Five {
    pub kind: u64,
    pub a: u64,
    pub b: u64,
    pub c: u64,
    pub d: u64,
}

fn none(s: &[u64]) {}

// Costs nothing when it runs, and tells its caller's proof how many words there are.
pub fn all_words(w: &[u64; GROUP])
    ensures { length w.now ≡ 1413 }
{
    none(w);
}

fn all_five(w: &[u64; OBSTACLE])
    ensures { length w.now ≡ 5 }
{
    none(w);
}

// ---- an obstacle

pub fn length_of(w: u64) -> i64
    ensures { result ≡ length_of w }
{
    if w < 9223372036854775808 {
        return w as i64;
    }
    -1 - ((18446744073709551615 - w) as i64)
}

// Whether two words are the same handle: those that name no node are all one.
pub fn same_node(a: u64, b: u64) -> bool
    ensures { result ≡ same_hand a b }
{
    (a == b) | ((PAST_HANDLES <= a) & (PAST_HANDLES <= b))
}

pub fn is_form(f: Five) -> bool
    ensures { result ≡ is_form f }
{
    let kind = f.kind;
    match kind {
        1 => (f.b <= 1) & ((f.c == 0) & (f.d == 0)),
        2 => true,
        3 => (f.c < 4294967296) & (f.d <= 1),
        4 => (f.b == 0) & ((f.c == 0) & (f.d == 0)),
        5 => (f.b == 0) & ((f.c == 0) & (f.d == 0)),
        6 => f.d == 0,
        _ => false,
    }
}

// Five zeros, where there is no obstacle.
pub fn no_obstacle() -> Five
    ensures { result ≡ five 0 0 0 0 0 }
{
    Five {
        kind: 0,
        a: 0,
        b: 0,
        c: 0,
        d: 0,
    }
}

// Five words from `at` on.
pub fn five_of(w: &[u64], at: usize) -> Five
    requires { at + 5 ≤ length w.now }
    ensures { result ≡ five_at w.now at }
{
    Five {
        kind: w[at],
        a: w[at + 1],
        b: w[at + 2],
        c: w[at + 3],
        d: w[at + 4],
    }
}

pub fn five_in(w: &[u64; OBSTACLE]) -> Five
    ensures { result ≡ five_at w.now 0 }
{
    five_of(w, 0)
}

pub fn put_in(w: &mut [u64; OBSTACLE], f: Five)
    ensures { w.new ≡ five_words f }
{
    all_five(w);
    w[0] = f.kind;
    w[1] = f.a;
    w[2] = f.b;
    w[3] = f.c;
    w[4] = f.d;
}

// ---- in a group

pub fn five_at(w: &[u64; GROUP], at: usize) -> Five
    requires { at + 5 ≤ 1413 }
    ensures { result ≡ five_at w.now at }
{
    five_of(w, at)
}

pub fn put_five(w: &mut [u64; GROUP], at: usize, f: Five)
    requires { at + 5 ≤ 1413 }
    ensures { w.new ≡ sets w.old at (five_words f) }
{
    w[at] = f.kind;
    w[at + 1] = f.a;
    w[at + 2] = f.b;
    w[at + 3] = f.c;
    w[at + 4] = f.d;
}

// The k words from at + 6 on come to at.
pub fn slide(w: &mut [u64; GROUP], at: usize, k: usize)
    requires { (length w.old ≡ 1413) × (at + 6 + k ≤ 1413) }
    ensures { w.new ≡ slid w.old at k }
{
    w.copy_within(at + 6..at + 6 + k, at);
}
