#![tactic(auto)]
// The slots of a sound bench: each is blank and not in the map, or is in the map, used and holds a node that keeps every rule. Everything here only reads, and any words may be
// lent whose interfaces are in range. Assumes nothing.
ghost use Rattle.std.specs.Prelude.{◌≡◌, ◌<◌, ◌≤◌};
ghost use Rattle.bench_views.specs.Records.{Steady};
ghost use Rattle.sound_trees.specs.Below.{all_to};
ghost use Rattle.sound_nodes.specs.Nodes.{Grounds, near_test, node_test, slot_test, slots_test};

use bench_words::{Node, WORDS};
use kinds::{GrowState, Handle};

// What the nodes of one interface have in common: the top of their tree, T and W.
#[derive(Clone, Copy)]
pub struct Ground {
    pub top: usize,
    pub total: u64,
    pub width: u64,
}

fn ground_of(b: &[u64; WORDS], u: usize) -> Ground
    requires steady { Steady b.now }
    requires u_bound { u < 8 }
    ensures { Grounds b.now u result }
{
    let c = bench_trees::climb(b, u);
    let top = c.top;
    let width = sound_trees::width(b, top);
    Ground {
        top,
        total: c.total,
        width,
    }
}

// A bias that leaves room for T, and a value within W of 0.
fn is_near(g: GrowState, bias: u64, t: u64, w: u64) -> bool
    requires t_bound { t ≤ 8796093022208 }
    requires w_bound { w ≤ 8796093022208 }
    ensures { result ≡ near_test g bias t w }
{
    if bias < 576460752303423488 {
        return false;
    }
    if 2305843009213693952 < bias {
        return false;
    }
    let v = bench_trees::valued(g, bias, t);
    (Node::OFFSET - w <= v) & (v <= Node::OFFSET + w)
}

fn is_node(b: &[u64; WORDS], u: usize, s: usize, g: Ground) -> bool
    requires steady { Steady b.now }
    requires u_bound { u < 8 }
    requires s_bound { s < 64 }
    requires grounds { Grounds b.now u g }
    ensures { result ≡ node_test b.now u s }
{
    let k = u * 64 + s;
    if !bench_words::coding::is_coded(b, k) {
        return false;
    }
    let next = bench_words::load_next(b);
    let n = bench_words::load_node(b, k);
    let state = n.state;
    let serial = n.serial;
    let h = Handle {
        unit: u as u8,
        slot: s as u8,
        serial,
    };
    let given = (1 <= n.serial.0) & ((n.serial.0 as u64) < next);
    let near = is_near(state, n.bias, g.total, g.width);
    let class = sound_rings::is_class(b, h, n, next);
    let seat = sound_seats::is_parent(b, k, g.top, n);
    (given & near) & (class & seat)
}

// The map says which of both a slot must be.
fn is_slot(b: &[u64; WORDS], u: usize, s: usize, used: u64, map: u64, g: Ground) -> bool
    requires steady { Steady b.now }
    requires u_bound { u < 8 }
    requires s_bound { s < 64 }
    requires grounds { Grounds b.now u g }
    ensures { result ≡ slot_test b.now used map u s }
{
    if !slot_map::has(map, s as u8) {
        return bench_words::coding::is_blank(b, u * 64 + s);
    }
    if used <= (s as u64) {
        return false;
    }
    is_node(b, u, s, g)
}

fn are_slots(b: &[u64; WORDS], u: usize) -> bool
    requires steady { Steady b.now }
    requires u_bound { u < 8 }
    ensures { result ≡ slots_test b.now u }
{
    let f = bench_words::load_interface(b, u);
    let used = f.used;
    let map = bench_words::load_map(b, u);
    let g = ground_of(b, u);
    (0..64).all(|s: usize| is_slot(b, u, s, used, map, g))
}

// Whether every slot of the bench is blank or holds a node that keeps the rules, as its map says.
pub fn are_nodes(b: &[u64; WORDS]) -> bool
    requires { Steady b.now }
    ensures { result ≡ all_to (slots_test b.now) 8 }
{
    // By for: with the chain `(0..8).all(..)` here the test of a full bench was slower (docs/DESIGN-PASS.md).
    for u in 0..8 {
        if !are_slots(b, u) {
            return false;
        }
    }
    true
}
