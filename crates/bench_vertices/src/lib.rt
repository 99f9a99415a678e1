#![tactic(auto)]
// The vertices under a node: the walk into a circle's members, depth first in circle order. A member's serial is lower than its blossom's, so the
// walks end: down to the first vertex by a loop, with no call for a level; to all of them by recursion. Everything here only reads the bench.
// Assumes nothing.
ghost use Rattle.std.specs.Prelude.{◌≡◌, ◌+◌, ◌≤◌, length, get_or};
ghost use Rattle.bench_views.specs.Fit.{Fit};
ghost use Rattle.bench_vertices.specs.Under.{Placed, under, Wrote};

use bench_words::WORDS;
use kinds::{Class, Vertex};

// A defect's own vertex, and of a blossom that of its first member.
pub fn first_vertex(b: &[u64; WORDS], k: usize) -> Vertex
    requires fit { Fit b.now }
    requires placed { Placed b.now k }
    ensures { result.0 ≡ get_or (under b.now k) 0 0 }
{
    let mut p = k;
    // How deep the defect stands is not known beforehand: the serials on the way down fall, and no count does.
    loop {
        let n = bench_words::load_node(b, p);
        match n.class {
            Class::Absent => {
                return Vertex(0);
            }
            Class::Defect(v) => {
                return v;
            }
            Class::Blossom => {
                p = n.first as usize;
            }
        }
    }
}

// Writes the vertices under a node from `at` on, and answers the place after them.
pub fn all_vertices(b: &[u64; WORDS], k: usize, out: &mut [u32], at: usize) -> usize
    requires fit { Fit b.now }
    requires placed { Placed b.now k }
    requires k_in_bounds { at + length (under b.now k) ≤ length out.old }
    ensures { Wrote (under b.now k) at out.old out.new result }
{
    let n = bench_words::load_node(b, k);
    let class = n.class;
    match class {
        Class::Absent => at,
        Class::Defect(v) => {
            out[at] = v.0;
            at + 1
        }
        Class::Blossom => {
            let mut i = at;
            let mut p = n.first;
            for _ in 0..n.count {
                let q = p as usize;
                i = all_vertices(b, q, out, i);
                let x = bench_words::load_node(b, q);
                p = x.next;
            }
            i
        }
    }
}
