#![tactic(auto)]
// A node's class: a defect has no circle and size 1; a blossom's circle is walked once, each member linking back to it from its place. Everything
// here only reads, and any words may be lent. Assumes nothing.
ghost use Rattle.std.specs.Prelude.{◌≡◌};
ghost use Rattle.bench_words.specs.Store.{node_at};
ghost use Rattle.sound_rings.specs.Rings.{is_inside, member_of, ring_test, class_test};

use bench_words::{Node, WORDS};
use kinds::{Class, Handle};

fn is_inside(p: Option<Handle>, h: Handle) -> bool
    ensures { result ≡ is_inside p h }
{
    p == Some(h)
}

// A member links back from place i; no size is larger than the bench; its touching handles were given out.
fn is_member(m: Node, h: Handle, i: u64, next: u64) -> bool
    ensures { result ≡ member_of m h i next }
{
    let back = is_inside(m.parent, h);
    let touching = ((m.left.serial.0 as u64) < next) & ((m.right.serial.0 as u64) < next);
    back & ((m.place == i) & ((m.size <= 512) & touching))
}

// The circle of a blossom h, walked from its first member: as many members as counted, after them nothing, and the sizes add up.
fn is_ring(b: &[u64; WORDS], h: Handle, n: Node, next: u64) -> bool
    ensures { result ≡ ring_test (node_at b.now) next h n }
{
    if n.count == 0 {
        return false;
    }
    if 64 < n.count {
        return false;
    }
    let mut p = n.first;
    let mut total: u64 = 0;
    for i in 0..n.count {
        if 512 <= p {
            return false;
        }
        let m = bench_words::load_node(b, p as usize);
        if !is_member(m, h, i, next) {
            return false;
        }
        total += m.size;
        p = m.next;
    }
    (n.size == total) & (p == 0)
}

// What a present node is.
pub fn is_class(b: &[u64; WORDS], h: Handle, n: Node, next: u64) -> bool
    ensures { result ≡ class_test (node_at b.now) next h n }
{
    let class = n.class;
    match class {
        Class::Absent => false,
        Class::Blossom => is_ring(b, h, n, next),
        Class::Defect(_v) => (n.size == 1) & ((n.first == 0) & (n.count == 0)),
    }
}
