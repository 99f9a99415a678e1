// Nodes by their serials, which is how a recording names them, and the dump of a tree, slot by slot.
use crate::tapes::ROOM;
use crate::{tapes, told};
use bench_words::{Node, WORDS};
use kinds::{Class, GrowState, Handle};

// The word that names no node.
pub const NO_NODE: u64 = bench_words::PAST_HANDLES;

// Whether slot k holds a node of this serial.
fn holds(b: &[u64; WORDS], k: usize, serial: i64) -> bool {
    if k < 512 {
        let n = bench_words::load_node(b, k);
        let class = n.class;
        return match class {
            Class::Absent => false,
            Class::Blossom => (n.serial.0 as i64) == serial,
            Class::Defect(_) => (n.serial.0 as i64) == serial,
        };
    }
    false
}

// The handle of what slot k holds.
fn handle_at(b: &[u64; WORDS], k: usize) -> u64 {
    if k < 512 {
        let n = bench_words::load_node(b, k);
        return ((n.serial.0 as u64) * 64 + ((k % 64) as u64)) * 8 + ((k / 64) as u64);
    }
    NO_NODE
}

// The present node with a serial, or the word that names none.
pub fn named(b: &[u64; WORDS], serial: i64) -> u64 {
    for k in 0..512 {
        if holds(b, k, serial) {
            return handle_at(b, k);
        }
    }
    NO_NODE
}

fn rate(s: GrowState) -> i64 {
    match s {
        GrowState::Grow => 1,
        GrowState::Stay => 0,
        GrowState::Shrink => -1,
    }
}

fn parent(out: &mut [i64; ROOM], n: usize, p: Option<Handle>) -> usize {
    match p {
        None => tapes::say(out, n, 0),
        Some(h) => tapes::say(out, n, h.serial.0 as i64),
    }
}

// A member of a circle with its touching handles, and where the next one stands.
#[derive(Clone, Copy)]
struct Step {
    said: usize,
    next: u64,
}

fn member(b: &[u64; WORDS], out: &mut [i64; ROOM], n: usize, at: u64) -> Step {
    if at < 512 {
        let m = bench_words::load_node(b, at as usize);
        let left = m.left;
        let right = m.right;
        let x = tapes::say(out, n, m.serial.0 as i64);
        let y = tapes::say(out, x, left.serial.0 as i64);
        let z = tapes::say(out, y, right.serial.0 as i64);
        return Step {
            said: z,
            next: m.next,
        };
    }
    Step { said: n, next: 512 }
}

fn circle(b: &[u64; WORDS], out: &mut [i64; ROOM], n: usize, count: u64, first: u64) -> usize {
    let mut said = tapes::say(out, n, told::small(count));
    let mut at = first;
    for _ in 0..count {
        let s = member(b, out, said, at);
        said = s.said;
        at = s.next;
    }
    said
}

fn value(b: &[u64; WORDS], h: u64) -> i64 {
    let mut w: u64 = 0;
    dual_ledger::open_reads::dual_ledger_get_dual_variable(b, h, &mut w);
    told::signed(w)
}

// What is shown of a node beside its class: serial, state, parent, size, value.
fn body(b: &[u64; WORDS], out: &mut [i64; ROOM], n: usize, m: Node, h: u64) -> usize {
    let state = m.state;
    let up = m.parent;
    let s = tapes::say(out, n, m.serial.0 as i64);
    let t = tapes::say(out, s, rate(state));
    let p = parent(out, t, up);
    let z = tapes::say(out, p, told::small(m.size));
    tapes::say(out, z, value(b, h))
}

// A present node, whole.
fn node(b: &[u64; WORDS], out: &mut [i64; ROOM], n: usize, h: u64) -> usize {
    let k = ((h % 8) as usize) * 64 + (((h / 8) % 64) as usize);
    if k < 512 {
        let m = bench_words::load_node(b, k);
        let class = m.class;
        return match class {
            Class::Absent => n,
            Class::Defect(v) => {
                let a = tapes::say(out, n, 1);
                let c = body(b, out, a, m, h);
                tapes::say(out, c, v.0 as i64)
            }
            Class::Blossom => {
                let a = tapes::say(out, n, 2);
                let c = body(b, out, a, m, h);
                circle(b, out, c, m.count, m.first)
            }
        };
    }
    n
}

fn slot(b: &[u64; WORDS], out: &mut [i64; ROOM], n: usize, unit: u8, i: u32) -> usize {
    let mut h: u64 = 0;
    dual_ledger::open_reads::dual_ledger_get_node(b, unit, i, &mut h);
    if NO_NODE <= h {
        return tapes::say(out, n, 0);
    }
    node(b, out, n, h)
}

// Every slot of a tree by index, used or emptied.
pub fn dump(b: &[u64; WORDS], out: &mut [i64; ROOM], unit: u8) -> usize {
    let mut count: u64 = 0;
    let number = dual_ledger::open_reads::dual_ledger_nodes_count(b, unit, &mut count);
    let a = tapes::say(out, 0, number as i64);
    let mut n = tapes::say(out, a, told::small(count));
    for i in 0..512 {
        if count <= (i as u64) {
            return n;
        }
        n = slot(b, out, n, unit, i);
    }
    n
}
