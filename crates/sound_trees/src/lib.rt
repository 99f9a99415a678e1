#![tactic(auto)]
// The interfaces of a sound bench: their ranges, and links both ways between a parent and its halves; and W, the progress of a whole tree.
// Everything here only reads, and any words may be lent. Assumes nothing.
ghost use Rattle.std.specs.Prelude.{◌≡◌, ◌<◌, ◌≤◌};
ghost use Rattle.bench_words.specs.Store.{interface_at};
ghost use Rattle.bench_words.proofs.Laws.{GoodUp};
ghost use Rattle.bench_views.specs.Records.{Steady};
ghost use Rattle.sound_trees.specs.Below.{all_to};
ghost use Rattle.sound_trees.specs.Links.{is_under, up_test, down_test, interface_test};
ghost use Rattle.sound_trees.specs.Width.{progress_under, width_of};

use bench_words::{Interface, WORDS};

fn is_under(p: Option<u8>, u: usize) -> bool
    ensures { result ≡ is_under p u }
{
    match p {
        None => false,
        Some(q) => (q as usize) == u,
    }
}

// An interface's parent, if any, has a higher number and has the interface for a half.
fn is_half(b: &[u64; WORDS], p: Option<u8>, u: usize) -> bool
    requires good_up { GoodUp p }
    requires u_bound { u < 8 }
    ensures { result ≡ up_test (interface_at b.now) p u }
{
    match p {
        None => true,
        Some(q) => {
            let f = bench_words::load_interface(b, q as usize);
            let n = (u as u64) + 1;
            (u < (q as usize)) & ((f.left == n) | (f.right == n))
        }
    }
}

// Halves are none, or two of lower numbers whose parent is the interface.
fn are_halves(b: &[u64; WORDS], l: u64, r: u64, u: usize) -> bool
    requires { u < 8 }
    ensures { result ≡ down_test (interface_at b.now) l r u }
{
    if l == 0 {
        return r == 0;
    }
    let n = u as u64;
    if n < l {
        return false;
    }
    if n < r {
        return false;
    }
    if r == 0 {
        return false;
    }
    let f = bench_words::load_interface(b, (l - 1) as usize);
    let g = bench_words::load_interface(b, (r - 1) as usize);
    let p = f.parent;
    let q = g.parent;
    (l != r) & (is_under(p, u) & is_under(q, u))
}

fn is_interface(b: &[u64; WORDS], u: usize) -> bool
    requires { u < 8 }
    ensures { result ≡ interface_test b.now u }
{
    let f = bench_words::load_interface(b, u);
    let p = f.parent;
    let coded = bench_words::coding::is_spare(b, u)
        & (bench_words::coding::is_link(b, u) & bench_words::coding::is_flags(b, u));
    let ranged = (f.used <= 64) & (f.progress <= Interface::PROGRESS);
    coded & (ranged & (is_half(b, p, u) & are_halves(b, f.left, f.right, u)))
}

// Whether all eight keep the rules.
pub fn are_trees(b: &[u64; WORDS]) -> bool
    ensures { result ≡ all_to (interface_test b.now) 8 }
{
    (0..8).all(|u: usize| is_interface(b, u))
}

// The progress of an interface that climbs to `top`, and 0 of another.
fn progress_under(b: &[u64; WORDS], top: usize, u: usize) -> u64
    requires steady { Steady b.now }
    requires u_bound { u < 8 }
    ensures { (result ≡ progress_under b.now top u) × (result ≤ 1099511627776) }
{
    if bench_trees::top_of(b, u) != top {
        return 0;
    }
    let f = bench_words::load_interface(b, u);
    f.progress
}

// W of an interface without a parent: the progress of all that climb to it.
pub fn width(b: &[u64; WORDS], top: usize) -> u64
    requires { Steady b.now }
    ensures { (result ≡ width_of b.now top) × (result ≤ 8796093022208) }
{
    let mut w: u64 = 0;
    for u in 0..8 {
        w += progress_under(b, top, u);
    }
    w
}
