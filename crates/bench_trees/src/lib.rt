#![tactic(auto)]
// Up the tree of fused interfaces: its top, and T, the progress of an interface and of all above it (0 in the plain engine); and a node's value by its bias and T.
// Everything here only reads. Assumes nothing.
ghost use Rattle.std.specs.Prelude.{◌≡◌, ◌+◌, ◌<◌, ◌≤◌};
ghost use Rattle.bench_words.specs.Codec.{pick};
ghost use Rattle.ledger_spec.specs.Look.{top};
ghost use Rattle.bench_views.specs.Records.{rate_of, Steady};
ghost use Rattle.bench_views.specs.View.{value_by, bias_of, view};
ghost use Rattle.bench_trees.specs.Climb.{Climbs};

use bench_words::WORDS;
use kinds::GrowState;

// The value of a node, 2^60 higher than it is.
pub fn valued(g: GrowState, bias: u64, t: u64) -> u64
    requires { (t ≤ bias) × (bias + t < 18446744073709551616) }
    ensures { result ≡ value_by g bias t }
{
    match g {
        GrowState::Grow => bias + t,
        GrowState::Stay => bias,
        GrowState::Shrink => bias - t,
    }
}

// The bias that gives a value.
pub fn biased(g: GrowState, value: u64, t: u64) -> u64
    requires { (t ≤ value) × (value + t < 18446744073709551616) }
    ensures { result ≡ bias_of g value t }
{
    match g {
        GrowState::Grow => value - t,
        GrowState::Stay => value,
        GrowState::Shrink => value + t,
    }
}

// A state's share of the speed, one higher than it is.
pub fn rate_of(g: GrowState) -> u64
    ensures { (result ≡ rate_of g) × (result ≤ 2) }
{
    match g {
        GrowState::Grow => 2,
        GrowState::Stay => 1,
        GrowState::Shrink => 0,
    }
}

// What the values under an interface are behind by: its progress, or nothing in the plain engine.
pub fn lag(plain: bool, progress: u64) -> u64
    ensures { result ≡ pick plain 0 progress }
{
    if plain {
        return 0;
    }
    progress
}

// The interface without a parent at the top of a tree, and T on the way to it.
#[derive(Clone, Copy)]
pub struct Climbed {
    pub top: usize,
    pub total: u64,
}

// The loop's own count is the fuel of the definitions.
pub fn climb(b: &[u64; WORDS], unit: usize) -> Climbed
    requires unit_bound { unit < 8 }
    requires steady { Steady b.now }
    ensures { Climbs b.now unit result.top result.total }
{
    let mut t: u64 = 0;
    let mut u = unit;
    for _step in 0..8usize {
        let f = bench_words::load_interface(b, u);
        t += lag(f.marks.plain, f.progress);
        match f.parent {
            None => {
                return Climbed { top: u, total: t };
            }
            Some(p) => {
                u = p as usize;
            }
        }
    }
    Climbed { top: u, total: t }
}

// The top alone, of any words.
pub fn top_of(b: &[u64; WORDS], unit: usize) -> usize
    requires { unit < 8 }
    ensures { (result ≡ top (view b.now) unit) × (result < 8) }
{
    let mut u = unit;
    for _level in 0..8usize {
        let f = bench_words::load_interface(b, u);
        match f.parent {
            None => {
                return u;
            }
            Some(p) => {
                u = p as usize;
            }
        }
    }
    u
}
