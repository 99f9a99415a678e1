// The lines that read: of an interface, of a node.
use crate::tapes::ROOM;
use crate::{nodes, tapes, told};
use bench_words::WORDS;

const VERTICES: usize = 1024;

// A number, and what was read.
fn two(out: &mut [i64; ROOM], number: u8, what: i64) -> usize {
    let n = tapes::say(out, 0, number as i64);
    tapes::say(out, n, what)
}

pub fn strict(b: &[u64; WORDS], out: &mut [i64; ROOM], unit: u8) -> usize {
    let mut verdict: u64 = 0;
    let mut index: u64 = 0;
    let r = dual_ledger::open_reads::dual_ledger_strict_check(b, unit, &mut verdict, &mut index);
    let m = two(out, r, told::small(verdict));
    tapes::say(out, m, told::small(index))
}

pub fn sum(b: &[u64; WORDS], out: &mut [i64; ROOM], unit: u8) -> usize {
    let mut w: u64 = 0;
    let r = dual_ledger::open_reads::dual_ledger_sum_dual_variables(b, unit, &mut w);
    two(out, r, told::signed(w))
}

pub fn speed(b: &[u64; WORDS], out: &mut [i64; ROOM], unit: u8) -> usize {
    let mut w: u64 = 0;
    let r = dual_ledger::open_reads::dual_ledger_sum_grow_speed(b, unit, &mut w);
    two(out, r, told::signed(w))
}

pub fn count(b: &[u64; WORDS], out: &mut [i64; ROOM], unit: u8) -> usize {
    let mut w: u64 = 0;
    let r = dual_ledger::open_reads::dual_ledger_nodes_count(b, unit, &mut w);
    two(out, r, told::small(w))
}

// Serial, interface and slot of a handle; zeros of none.
fn found(out: &mut [i64; ROOM], n: usize, h: u64) -> usize {
    let w = if h < nodes::NO_NODE { h } else { 0 };
    let a = tapes::say(out, n, told::serial(w));
    let c = tapes::say(out, a, told::small(w % 8));
    tapes::say(out, c, told::small((w / 8) % 64))
}

pub fn index(b: &[u64; WORDS], out: &mut [i64; ROOM], unit: u8, i: u32) -> usize {
    let mut h: u64 = 0;
    let r = dual_ledger::open_reads::dual_ledger_get_node(b, unit, i, &mut h);
    let n = tapes::say(out, 0, r as i64);
    found(out, n, h)
}

pub fn belonging(b: &[u64; WORDS], out: &mut [i64; ROOM], unit: u8, h: u64) -> usize {
    let mut w: u64 = 0;
    let r = dual_ledger::open_reads::dual_ledger_check_ptr_belonging(b, unit, h, &mut w);
    two(out, r, told::small(w))
}

pub fn value(b: &[u64; WORDS], out: &mut [i64; ROOM], h: u64) -> usize {
    let mut w: u64 = 0;
    let r = dual_ledger::open_reads::dual_ledger_get_dual_variable(b, h, &mut w);
    two(out, r, told::signed(w))
}

pub fn outermost(b: &[u64; WORDS], out: &mut [i64; ROOM], h: u64) -> usize {
    let mut top: u64 = 0;
    let mut links: u64 = 0;
    let r = dual_ledger::open_reads::dual_ledger_get_ancestor_blossom(b, h, &mut top, &mut links);
    let n = two(out, r, told::serial(top));
    tapes::say(out, n, told::small(links))
}

pub fn below(b: &[u64; WORDS], out: &mut [i64; ROOM], h: u64) -> usize {
    let mut w: u64 = 0;
    let r = dual_ledger::open_reads::dual_ledger_get_secondary_ancestor_blossom(b, h, &mut w);
    two(out, r, told::serial(w))
}

pub fn first(b: &[u64; WORDS], out: &mut [i64; ROOM], h: u64) -> usize {
    let mut v: u32 = 0;
    let r = dual_ledger::open_reads::dual_ledger_get_representative_vertex(b, h, &mut v);
    two(out, r, wide(v))
}

fn wide(v: u32) -> i64 {
    v as i64
}

// All vertices into the first entries of a slice; each of those is shown, those past the vertices too.
fn vertices_in(
    b: &[u64; WORDS],
    out: &mut [i64; ROOM],
    h: u64,
    room: usize,
    vs: &mut [u32],
) -> usize {
    let most = tapes::vertices_within(room, vs);
    let mut count: u64 = 0;
    let r = dual_ledger::open_reads::dual_ledger_get_all_vertices(
        b,
        h,
        &mut vs[..most],
        &mut count,
    );
    let mut n = two(out, r, told::small(count));
    for &v in &vs[..most] {
        n = tapes::say(out, n, wide(v));
    }
    n
}

// All vertices into a slice of so many entries, which are 77 before.
pub fn vertices(b: &[u64; WORDS], out: &mut [i64; ROOM], h: u64, z: i64) -> usize {
    let mut vs = [77u32; VERTICES];
    vertices_in(b, out, h, tapes::natural(z) as usize, &mut vs)
}
