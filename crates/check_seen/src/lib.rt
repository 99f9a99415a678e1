#![tactic(auto)]
// The vertices met so far, in buckets, and in a bucket as a tree by the bits of the vertex, so that a vertex is looked for among few whichever they are:
// one that has 448 others in its bucket is compared with 24 of them at most. It knows no bench. Assumes nothing.
//
//   words 0 .. 511             for each bucket its first entry and one, or 0
//   words 512 + 3 j .. + 2     entry j: the vertex, and for a next bit of 0 and of 1 the entry that is looked at then and one, or 0
ghost use Rattle.std.specs.Prelude.{◌<◌};
ghost use Rattle.check_seen.specs.Met.{Keeps, Meets};

pub const WORDS: usize = 2048;

// Buckets are the lowest nine bits of a vertex.
const BUCKETS: u32 = 512;

// Where the entry before the first one would stand: entries are counted from one.
const BASE: usize = 509;

// Whether a vertex was met before. If not, it is the entry after the first n.
pub fn meet(t: &mut [u32; WORDS], n: usize, v: u32) -> bool
    requires keeps { Keeps t.old n }
    requires n_bound { n < 512 }
    ensures { Meets t.old n v t.new result }
{
    let mut cell = (v % BUCKETS) as usize;
    let mut rest = v / BUCKETS;
    let mut p = t[cell];
    // How deep the tree is at this vertex is not known beforehand: the walk ends at an empty link.
    while 0 < p {
        let at = BASE + 3 * (p as usize);
        if t[at] == v {
            return true;
        }
        cell = at + 1 + ((rest % 2) as usize);
        rest /= 2;
        p = t[cell];
    }
    t[cell] = (n + 1) as u32;
    t[BASE + 3 + 3 * n] = v;
    false
}
