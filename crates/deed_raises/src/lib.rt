#![tactic(auto)]
// The plain engine's growth: every node of a tree is touched, and its value moves by the length, by its state. An empty slot stays, so that all
// used slots can be walked. Assumes nothing.
ghost use Rattle.std.specs.Prelude.{◌≡◌, ◌<◌};
ghost use Rattle.bench_words.specs.Store.{node_at, interface_at, store_bias};
ghost use Rattle.bench_views.specs.Records.{Steady};
ghost use Rattle.bench_views.specs.Canon.{Coded};
ghost use Rattle.bench_views.specs.View.{value_by};
ghost use Rattle.deed_raises.specs.Raises.{Movable, AllMovable, TreeMovable, Bare, RaisedIn, RaisedUnder, Raised};

use bench_words::WORDS;
use kinds::GrowState;

// A value moved by a length, by its node's state.
fn moved(g: GrowState, value: u64, length: u64) -> u64
    requires { Movable g value length }
    ensures { result ≡ value_by g value length }
{
    match g {
        GrowState::Grow => value + length,
        GrowState::Stay => value,
        GrowState::Shrink => value - length,
    }
}

// Moves the value of one slot.
fn raise_slot(b: &mut [u64; WORDS], k: usize, length: u64)
    requires k_bound { k < 512 }
    requires movable { Movable (node_at b.old k).state (node_at b.old k).bias length }
    ensures { b.new ≡ store_bias b.old k (value_by (node_at b.old k).state (node_at b.old k).bias length) }
{
    let g = bench_words::biases::load_state(b, k);
    let value = bench_words::biases::load_bias(b, k);
    bench_words::biases::store_bias(b, k, moved(g, value, length));
}

// Moves the value of every used slot of an interface.
fn raise_interface(b: &mut [u64; WORDS], unit: usize, length: u64)
    requires unit_bound { unit < 8 }
    requires steady { Steady b.old }
    requires coded { Coded b.old }
    requires all_movable { AllMovable b.old length unit }
    ensures { RaisedIn b.old unit length b.new (interface_at b.old unit).used }
{
    let f = bench_words::load_interface(b, unit);
    for s in 0..f.used as usize {
        raise_slot(b, unit * 64 + s, length);
    }
}

// The same, if the interface is of the tree whose top is `top`.
fn raise_under(b: &mut [u64; WORDS], top: usize, unit: usize, length: u64)
    requires unit_bound { unit < 8 }
    requires steady { Steady b.old }
    requires coded { Coded b.old }
    requires all_movable { AllMovable b.old length unit }
    ensures { RaisedUnder b.old top unit length b.new }
{
    let up = bench_trees::climb(b, unit);
    if up.top != top {
        return;
    }
    raise_interface(b, unit, length);
}

// Moves the value of every node of the tree whose top is `top`.
pub fn raise_tree(b: &mut [u64; WORDS], top: usize, length: u64)
    requires steady { Steady b.old }
    requires coded { Coded b.old }
    requires bare { Bare b.old }
    requires tree_movable { TreeMovable b.old length }
    ensures { Raised b.old top length b.new 512 }
{
    for v in 0..8 {
        raise_under(b, top, v, length);
    }
}
