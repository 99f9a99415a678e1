#![tactic(auto)]
// The members of one circle, checked in circle order: a defect touches by itself (else 2), a blossom by present nodes (else 4) of its outermost blossom
// (else 3), and strictly by nodes under it, from which parents lead to it (else 6). A lent table says where each node lies in its nest, so that a handle
// costs no walk up, but for one that is not under its member. Everything here only reads. Assumes nothing.
ghost use Rattle.std.specs.Prelude.{◌≡◌, ◌<◌};
ghost use Rattle.bench_words.specs.Store.{node_at};
ghost use Rattle.kinds.specs.declared.Class.TheVariants.{Blossom};
ghost use Rattle.ledger_spec.specs.Named.{handle_named};
ghost use Rattle.ledger_spec.specs.Walk.{outermost};
ghost use Rattle.bench_views.specs.Fit.{Fit};
ghost use Rattle.bench_views.specs.View.{view, handle_at, member_at};
ghost use Rattle.bench_links.specs.Find.{Stands};
ghost use Rattle.bench_vertices.specs.Under.{Placed};
ghost use Rattle.check_nests.specs.Nest.{Nests};
ghost use Rattle.check_circles.specs.Found.{larger, own_by, touch_verdict, under_verdict, touch_by, member_by, Circled};

use bench_words::WORDS;
use check_nests::SLOTS;
use kinds::{Class, Handle};

// As many as the slots of a bench, which the parents of a node are fewer than.
const LINKS: u64 = 512;

// A verdict, and the member that it is of; 0 and nobody where nothing was found.
#[derive(Clone, Copy)]
pub struct Finding {
    pub verdict: u8,
    pub node: Handle,
}

// 4 comes before 3, whichever handle it is of.
fn larger_of(x: u8, y: u8) -> u8
    ensures { result ≡ larger x y }
{
    if x < y {
        return y;
    }
    x
}

// A defect's two touching handles.
#[tactic(auto, unfolding(crate::specs::Found::own_by))]
fn own_verdict(own: Handle, left: Handle, right: Handle, strict: bool) -> u8
    ensures { result ≡ own_by strict (handle_named own) (handle_named left) (handle_named right) }
{
    if strict || (left == own && right == own) {
        return 0;
    }
    2
}

// One touching handle of a blossom whose outermost blossom is `outer`.
fn touch_verdict(b: &[u64; WORDS], t: &[u64; SLOTS], outer: Handle, h: Handle) -> u8
    requires fit { Fit b.now }
    requires nests { Nests b.now t.now }
    ensures { result ≡ touch_verdict (view b.now) (handle_named outer) (handle_named h) }
{
    let Some(k) = bench_links::find(b, h) else {
        return 4;
    };
    if check_nests::outer(b, k, t) == outer {
        return 0;
    }
    3
}

// Strictly: from a present node up by its parents, until the member is met or there is no parent. Each turn is one link, as many as the definition has fuel.
fn rise(b: &[u64; WORDS], own: Handle, h: Handle) -> u8
    requires fit { Fit b.now }
    requires stands { Stands b.now (handle_named h) }
    ensures { result ≡ under_verdict (view b.now) (handle_named own) (handle_named h) }
{
    let mut at = h;
    for _ in 0..LINKS {
        if at == own {
            return 0;
        }
        let k = (at.unit as usize) * 64 + (at.slot as usize);
        let n = bench_words::load_node(b, k);
        let Some(q) = n.parent else {
            return 6;
        };
        at = q;
    }
    if at == own {
        return 0;
    }
    6
}

// One touching handle of the blossom at a position, strictly.
fn under_verdict(b: &[u64; WORDS], t: &[u64; SLOTS], k: usize, h: Handle) -> u8
    requires fit { Fit b.now }
    requires nests { Nests b.now t.now }
    requires placed { Placed b.now k }
    ensures { result ≡ under_verdict (view b.now) (handle_at (node_at b.now) k) (handle_named h) }
{
    let own = check_nests::handle_at(b, k);
    if h == own {
        return 0;
    }
    match bench_links::find(b, h) {
        None => 6,
        Some(p) => {
            if check_nests::is_within(b, k, p, t) {
                return 0;
            }
            rise(b, own, h)
        }
    }
}

#[tactic(auto, unfolding(crate::specs::Found::touch_by))]
fn touch(b: &[u64; WORDS], t: &[u64; SLOTS], k: usize, outer: Handle, h: Handle, strict: bool) -> u8
    requires fit { Fit b.now }
    requires nests { Nests b.now t.now }
    requires placed { Placed b.now k }
    ensures { result ≡ touch_by strict (view b.now) (handle_at (node_at b.now) k) (handle_named outer) (handle_named h) }
{
    if strict {
        return under_verdict(b, t, k, h);
    }
    touch_verdict(b, t, outer, h)
}

// The member at a position, whose outermost blossom is `outer`.
fn member_verdict(b: &[u64; WORDS], t: &[u64; SLOTS], k: usize, outer: Handle, strict: bool) -> u8
    requires fit { Fit b.now }
    requires nests { Nests b.now t.now }
    requires placed { Placed b.now k }
    requires outer_value { handle_named outer ≡ outermost (view b.now) (handle_at (node_at b.now) k) }
    ensures { result ≡ member_by strict (view b.now) (member_at (node_at b.now) k) }
{
    let n = bench_words::load_node(b, k);
    let own = Handle {
        unit: (k / 64) as u8,
        slot: (k % 64) as u8,
        serial: n.serial,
    };
    match n.class {
        Class::Absent => 0,
        Class::Defect(_) => own_verdict(own, n.left, n.right, strict),
        Class::Blossom => {
            let x = touch(b, t, k, outer, n.left, strict);
            let y = touch(b, t, k, outer, n.right, strict);
            larger_of(x, y)
        }
    }
}

// The first finding in the circle of the blossom at a position.
pub fn circle_verdict(b: &[u64; WORDS], k: usize, t: &[u64; SLOTS], strict: bool) -> Finding
    requires fit { Fit b.now }
    requires nests { Nests b.now t.now }
    requires placed { Placed b.now k }
    requires k_value { (node_at b.now k).class ≡ Blossom }
    ensures { Circled b.now k strict result }
{
    let n = bench_words::load_node(b, k);
    let outer = check_nests::outer(b, k, t);
    let mut p = n.first;
    for _ in 0..n.count {
        let q = p as usize;
        let verdict = member_verdict(b, t, q, outer, strict);
        if verdict != 0 {
            let node = check_nests::handle_at(b, q);
            return Finding { verdict, node };
        }
        let x = bench_words::load_node(b, q);
        p = x.next;
    }
    Finding {
        verdict: 0,
        node: Handle::nobody(),
    }
}
