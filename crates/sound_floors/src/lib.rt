#![tactic(auto)]
// The floors of a sound bench: all interfaces of a tree bear one mark, and in a floored tree no value is below zero. Only floored interfaces have their
// slots read. Everything here only reads, and any words may be lent whose interfaces are in range. Assumes nothing.
ghost use Rattle.std.specs.Prelude.{◌≡◌, ◌<◌, ◌≤◌};
ghost use Rattle.bench_words.specs.Store.{node_at, interface_at};
ghost use Rattle.bench_words.proofs.Laws.{GoodUp};
ghost use Rattle.bench_views.specs.Records.{Steady};
ghost use Rattle.sound_trees.specs.Below.{all_to};
ghost use Rattle.sound_floors.specs.Floors.{high_test, afloat_test, level_test, slot_afloat, floor_test};

use bench_words::{Node, WORDS};
use kinds::{Class, GrowState};

// A value of zero or more, without a sum that could wrap.
fn is_high(g: GrowState, bias: u64, t: u64) -> bool
    requires { t ≤ 8796093022208 }
    ensures { result ≡ high_test g bias t }
{
    match g {
        GrowState::Grow => Node::OFFSET - t <= bias,
        GrowState::Stay => Node::OFFSET <= bias,
        GrowState::Shrink => Node::OFFSET + t <= bias,
    }
}

fn is_afloat(b: &[u64; WORDS], k: usize, t: u64) -> bool
    requires k_bound { k < 512 }
    requires t_bound { t ≤ 8796093022208 }
    ensures { result ≡ afloat_test (node_at b.now k) t }
{
    let n = bench_words::load_node(b, k);
    let class = n.class;
    let state = n.state;
    match class {
        Class::Absent => true,
        Class::Blossom => is_high(state, n.bias, t),
        Class::Defect(_) => is_high(state, n.bias, t),
    }
}

fn is_level(b: &[u64; WORDS], p: Option<u8>, floored: bool) -> bool
    requires { GoodUp p }
    ensures { result ≡ level_test (interface_at b.now) p floored }
{
    match p {
        None => true,
        Some(q) => {
            let f = bench_words::load_interface(b, q as usize);
            let marks = f.marks;
            (floored & marks.floored) | (!floored & !marks.floored)
        }
    }
}

fn are_afloat(b: &[u64; WORDS], u: usize, used: usize, t: u64) -> bool
    requires u_bound { u < 8 }
    requires used_bound { used ≤ 64 }
    requires t_bound { t ≤ 8796093022208 }
    ensures { result ≡ all_to (slot_afloat b.now u t) used }
{
    (0..used).all(|s: usize| is_afloat(b, u * 64 + s, t))
}

fn is_floor(b: &[u64; WORDS], u: usize) -> bool
    requires steady { Steady b.now }
    requires u_bound { u < 8 }
    ensures { result ≡ floor_test b.now u }
{
    let f = bench_words::load_interface(b, u);
    let marks = f.marks;
    let p = f.parent;
    if !is_level(b, p, marks.floored) {
        return false;
    }
    if !marks.floored {
        return true;
    }
    let c = bench_trees::climb(b, u);
    are_afloat(b, u, f.used as usize, c.total)
}

// Whether all eight keep the rules.
pub fn are_floors(b: &[u64; WORDS]) -> bool
    requires { Steady b.now }
    ensures { result ≡ all_to (floor_test b.now) 8 }
{
    (0..8).all(|u: usize| is_floor(b, u))
}
