#![tactic(auto)]
// The sum and the speed of an interface without a parent: the sum within 512 W, the speed what the nodes of its tree make it. Everything here
// only reads, and any words may be lent whose interfaces are in range. Assumes nothing.
ghost use Rattle.std.specs.Prelude.{◌≡◌, ◌<◌, ◌≤◌};
ghost use Rattle.bench_views.specs.Records.{Steady};
ghost use Rattle.sound_trees.specs.Below.{all_to, sum_to};
ghost use Rattle.sound_tops.specs.Tops.{rate_in, pace_under, pace_of, top_test};

use bench_words::{Interface, WORDS};

// The shares of the speed of an interface's first slots, each one higher than it is.
fn rates(b: &[u64; WORDS], u: usize, used: usize) -> u64
    requires u_bound { u < 8 }
    requires used_bound { used ≤ 64 }
    ensures { (result ≡ sum_to (rate_in b.now u) used) × (result ≤ 128) }
{
    let mut total: u64 = 0;
    for s in 0..used {
        let n = bench_words::load_node(b, u * 64 + s);
        total += bench_trees::rate_of(n.state);
    }
    total
}

// The shares of an interface that climbs to `top`, 64 higher than they are, and 64 of another.
fn pace_under(b: &[u64; WORDS], top: usize, u: usize) -> u64
    requires steady { Steady b.now }
    requires u_bound { u < 8 }
    ensures { (result ≡ pace_under b.now top u) × (result ≤ 192) }
{
    if bench_trees::top_of(b, u) != top {
        return 64;
    }
    let f = bench_words::load_interface(b, u);
    rates(b, u, f.used as usize) + (64 - f.used)
}

// The speed of a tree, 512 higher than it is.
fn pace(b: &[u64; WORDS], top: usize) -> u64
    requires { Steady b.now }
    ensures { (result ≡ pace_of b.now top) × (result ≤ 1536) }
{
    let mut total: u64 = 0;
    for u in 0..8 {
        total += pace_under(b, top, u);
    }
    total
}

fn is_top(b: &[u64; WORDS], u: usize) -> bool
    requires steady { Steady b.now }
    requires u_bound { u < 8 }
    ensures { result ≡ top_test b.now u }
{
    let f = bench_words::load_interface(b, u);
    let up = f.parent;
    match up {
        Some(_p) => true,
        None => {
            let w = sound_trees::width(b, u) * 512;
            let p = pace(b, u);
            let near = (Interface::OFFSET - w <= f.sum) & (f.sum <= Interface::OFFSET + w);
            near & (f.speed == 512 + p)
        }
    }
}

// Whether every interface without a parent has a sound sum and speed.
pub fn are_tops(b: &[u64; WORDS]) -> bool
    requires { Steady b.now }
    ensures { result ≡ all_to (top_test b.now) 8 }
{
    (0..8).all(|u: usize| is_top(b, u))
}
