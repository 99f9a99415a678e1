#![tactic(auto)]
// The order of the index: a tree's interfaces from its left half to its right half to itself, its slots counted, an index to its slot and back.
// Everything here only reads. Assumes nothing.
ghost use Rattle.std.specs.Prelude.{◌≡◌, ◌∷◌, [], ◌+◌, ◌<◌, ◌≤◌, length};
ghost use Rattle.ledger_spec.specs.Look.{interface, tree};
ghost use Rattle.ledger_spec.specs.Named.{handle_named};
ghost use Rattle.ledger_spec.specs.Reads.{slots_of};
ghost use Rattle.ledger_spec.specs.Check.{index_in};
ghost use Rattle.bench_views.specs.Fit.{Fit};
ghost use Rattle.bench_views.specs.View.{view};
ghost use Rattle.bench_links.specs.Find.{Stands};
ghost use Rattle.bench_orders.specs.Order.{listed, Longer, Lists, Locates};

use bench_words::WORDS;
use kinds::{Handle, NodeIndex};

// The first `count` of `units` are a tree's interfaces in the order of the index.
#[derive(Clone, Copy)]
pub struct Order {
    pub units: [usize; 8],
    pub count: usize,
}

impl Order {
    // The interfaces in the order of the index.
    pub fn listed(&self) -> &[usize]
        requires { self.now.count ≤ length self.now.units }
        ensures { result.now ≡ listed self.now }
    {
        &self.units[..self.count]
    }
}

fn push(o: Order, unit: usize) -> Order
    requires { o.count < 8 }
    ensures { Longer o (unit ∷ []) result }
{
    let mut units = o.units;
    let n = o.count;
    units[n] = unit;
    Order {
        units,
        count: n + 1,
    }
}

// Lists the tree under an interface after what is listed, by recursion into the halves, whose numbers are lower.
fn list(b: &[u64; WORDS], unit: usize, o: Order) -> Order
    requires fit { Fit b.now }
    requires unit_bound { unit < 8 }
    requires unit_bound_2 { o.count + length (tree 8 (view b.now) unit) ≤ 8 }
    ensures { Longer o (tree 8 (view b.now) unit) result }
{
    let f = bench_words::load_interface(b, unit);
    if f.left == 0 {
        return push(o, unit);
    }
    let l = list(b, (f.left - 1) as usize, o);
    let r = list(b, (f.right - 1) as usize, l);
    push(r, unit)
}

pub fn order_of(b: &[u64; WORDS], unit: usize) -> Order
    requires fit { Fit b.now }
    requires unit_bound { unit < 8 }
    requires unit_value { (interface (view b.now) unit).parent ≡ None }
    ensures { Lists b.now unit result }
{
    let units = [0usize; 8];
    list(b, unit, Order { units, count: 0 })
}

// How many slots the tree under an interface has, used or emptied.
pub fn count(b: &[u64; WORDS], unit: usize) -> u64
    requires fit { Fit b.now }
    requires unit_bound { unit < 8 }
    requires unit_value { (interface (view b.now) unit).parent ≡ None }
    ensures { result ≡ length (slots_of (view b.now) unit) }
{
    let o = order_of(b, unit);
    let mut total: u64 = 0;
    for u in o.listed() {
        let f = bench_words::load_interface(b, *u);
        total += f.used;
    }
    total
}

pub fn locate(b: &[u64; WORDS], unit: usize, index: usize) -> Option<usize>
    requires fit { Fit b.now }
    requires unit_bound { unit < 8 }
    requires unit_value { (interface (view b.now) unit).parent ≡ None }
    ensures { Locates b.now unit index result }
{
    let o = order_of(b, unit);
    let mut rest = index as u64;
    for u in o.listed() {
        let f = bench_words::load_interface(b, *u);
        if rest < f.used {
            return Some(*u * 64 + (rest as usize));
        }
        rest -= f.used;
    }
    None
}

// The index of a present node in a tree; 0 for a node of another tree.
pub fn index_of(b: &[u64; WORDS], unit: usize, h: Handle) -> NodeIndex
    requires fit { Fit b.now }
    requires unit_bound { unit < 8 }
    requires unit_value { (interface (view b.now) unit).parent ≡ None }
    requires stands { Stands b.now (handle_named h) }
    ensures { result.0 ≡ index_in (slots_of (view b.now) unit) 0 (handle_named h) }
{
    let o = order_of(b, unit);
    let mut passed: u64 = 0;
    for u in o.listed() {
        if *u == (h.unit as usize) {
            return NodeIndex((passed + (h.slot as u64)) as u32);
        }
        let f = bench_words::load_interface(b, *u);
        passed += f.used;
    }
    NodeIndex(0)
}
