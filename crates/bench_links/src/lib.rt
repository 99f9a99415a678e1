#![tactic(auto)]
// Finding nodes: a handle to its slot, up the parents to the outermost blossom, whether two nodes stand in one tree, and a node's value.
// Everything here only reads. Positions are 64 * interface + slot. Assumes nothing.
ghost use Rattle.std.specs.Prelude.{◌≡◌, ◌<◌};
ghost use Rattle.ledger_spec.specs.Named.{handle_named};
ghost use Rattle.ledger_spec.specs.Look.{interface, node_named};
ghost use Rattle.ledger_spec.specs.Tests.{foreign};
ghost use Rattle.ledger_spec.specs.Change.{worth};
ghost use Rattle.bench_views.specs.Canon.{Canon};
ghost use Rattle.bench_views.specs.Fit.{Fit};
ghost use Rattle.bench_views.specs.Records.{Steady};
ghost use Rattle.bench_views.specs.View.{off, view};
ghost use Rattle.bench_views.specs.Given.{hand_given};
ghost use Rattle.bench_links.specs.Find.{absent_of, Stands, Finds};
ghost use Rattle.bench_links.specs.Outer.{Outers};

use bench_words::{Interface, Node, WORDS};
use kinds::{Class, Handle};

pub fn is_absent(c: Class) -> bool
    ensures { result ≡ absent_of c }
{
    c == Class::Absent
}

// Any handle at all: one out of range, of an empty slot or with another serial is stale.
pub fn find(b: &[u64; WORDS], h: Handle) -> Option<usize>
    requires { Canon b.now }
    ensures { Finds b.now (handle_named h) result }
{
    if 8 <= h.unit {
        return None;
    }
    if 64 <= h.slot {
        return None;
    }
    let k = (h.unit as usize) * 64 + (h.slot as usize);
    let n = bench_words::load_node(b, k);
    let class = n.class;
    if is_absent(class) {
        return None;
    }
    if n.serial.0 != h.serial.0 {
        return None;
    }
    Some(k)
}

// Any word at all, as a packed handle.
pub fn find_word(b: &[u64; WORDS], w: u64) -> Option<usize>
    requires { Canon b.now }
    ensures { Finds b.now (hand_given w) result }
{
    if bench_words::PAST_HANDLES <= w {
        return None;
    }
    find(b, bench_words::handle_of(w))
}

// The outermost blossom of a node, the last node on the way below it, and the number of links followed.
#[derive(Clone, Copy)]
pub struct Outer {
    pub node: Handle,
    pub under: Handle,
    pub links: u64,
}

// The loop's own count is the fuel of the definitions.
pub fn outermost(b: &[u64; WORDS], h: Handle) -> Outer
    requires fit { Fit b.now }
    requires stands { Stands b.now (handle_named h) }
    ensures { Outers b.now (handle_named h) result }
{
    let mut at = h;
    let mut under = h;
    for links in 0..512 {
        let k = (at.unit as usize) * 64 + (at.slot as usize);
        let n = bench_words::load_node(b, k);
        match n.parent {
            None => {
                return Outer {
                    node: at,
                    under,
                    links,
                };
            }
            Some(q) => {
                under = at;
                at = q;
            }
        }
    }
    Outer {
        node: at,
        under,
        links: 512,
    }
}

// Whether a node stands in another tree than that of an interface without a parent.
pub fn is_foreign(b: &[u64; WORDS], unit: u8, h: Handle) -> bool
    requires steady { Steady b.now }
    requires unit_bound { h.unit < 8 }
    ensures { result ≡ foreign (view b.now) unit (handle_named h) }
{
    let from = h.unit as usize;
    bench_trees::top_of(b, from) != (unit as usize)
}

// A number that the words hold c higher than it is.
pub fn lowered(x: u64, c: u64) -> i64
    requires { (x < 9223372036854775808) × (c < 9223372036854775808) }
    ensures { result ≡ off c x }
{
    (x as i64) - (c as i64)
}

// The value of a node: its bias, and T more or less.
pub fn value(b: &[u64; WORDS], h: Handle) -> i64
    requires fit { Fit b.now }
    requires stands { Stands b.now (handle_named h) }
    ensures { result ≡ worth (node_named (view b.now) (handle_named h)) }
{
    let unit = h.unit as usize;
    let c = bench_trees::climb(b, unit);
    let n = bench_words::load_node(b, unit * 64 + (h.slot as usize));
    let state = n.state;
    lowered(bench_trees::valued(state, n.bias, c.total), Node::OFFSET)
}

// The sum of an interface without a parent.
pub fn sum(b: &[u64; WORDS], unit: usize) -> i64
    requires fit { Fit b.now }
    requires unit_bound { unit < 8 }
    requires unit_value { (interface (view b.now) unit).parent ≡ None }
    ensures { result ≡ (interface (view b.now) unit).sum }
{
    let f = bench_words::load_interface(b, unit);
    lowered(f.sum, Interface::OFFSET)
}

// The speed of an interface without a parent.
pub fn speed(b: &[u64; WORDS], unit: usize) -> i64
    requires fit { Fit b.now }
    requires unit_bound { unit < 8 }
    requires unit_value { (interface (view b.now) unit).parent ≡ None }
    ensures { result ≡ (interface (view b.now) unit).speed }
{
    let f = bench_words::load_interface(b, unit);
    lowered(f.speed, 1024)
}
