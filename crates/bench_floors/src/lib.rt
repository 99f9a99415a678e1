#![tactic(auto)]
// The least value of a shrinking node in a floored tree. On the way it stands 2^60 higher than it is, as a value stands in the words. Everything here only
// reads. Assumes nothing.
ghost use Rattle.std.specs.Prelude.{◌≡◌, ◌/◌, ◌%◌, ◌<◌};
ghost use Rattle.bench_words.specs.Store.{interface_at};
ghost use Rattle.ledger_spec.specs.Look.{interface};
ghost use Rattle.ledger_spec.specs.Named.{state_named};
ghost use Rattle.ledger_spec.specs.Tests.{is_shrink};
ghost use Rattle.bench_views.specs.Fit.{Fit};
ghost use Rattle.bench_views.specs.View.{sum_up, view};
ghost use Rattle.bench_floors.specs.Least.{Lower, LowerIn, Lowest, Least};

use bench_words::{Node, WORDS};
use kinds::GrowState;

// More than any value, and any length added to one, in the words.
const NONE: u64 = 18446744073709551615;

fn is_shrink(state: GrowState) -> bool
    ensures { result ≡ is_shrink (state_named state) }
{
    state == GrowState::Shrink
}

// The lower of m and the value in a slot, if a node shrinks there.
fn lower(b: &[u64; WORDS], k: usize, t: u64, m: u64) -> u64
    requires fit { Fit b.now }
    requires k_bound { k / 64 < 8 }
    requires k_bound_2 { k % 64 < (interface_at b.now (k / 64)).used }
    requires t_value { t ≡ sum_up 8 (interface_at b.now) (k / 64) }
    ensures { Lower b.now k m result }
{
    let n = bench_words::load_node(b, k);
    if bench_links::is_absent(n.class) {
        return m;
    }
    if !is_shrink(n.state) {
        return m;
    }
    let v = bench_trees::valued(n.state, n.bias, t);
    if v < m {
        return v;
    }
    m
}

// The lower of m and the values of an interface's shrinking nodes.
fn lower_in(b: &[u64; WORDS], u: usize, m: u64) -> u64
    requires fit { Fit b.now }
    requires u_bound { u < 8 }
    ensures { LowerIn b.now u m result }
{
    let c = bench_trees::climb(b, u);
    let t = c.total;
    let f = bench_words::load_interface(b, u);
    let used = f.used as usize;
    let mut low = m;
    for s in 0..used {
        low = lower(b, u * 64 + s, t, low);
    }
    low
}

// The lowest of the whole tree, where it is floored.
fn lowest(b: &[u64; WORDS], unit: usize) -> u64
    requires fit { Fit b.now }
    requires unit_bound { unit < 8 }
    requires unit_value { (interface (view b.now) unit).parent ≡ None }
    ensures { Lowest b.now unit result }
{
    let f = bench_words::load_interface(b, unit);
    let marks = f.marks;
    if !marks.floored {
        return NONE;
    }
    let o = bench_orders::order_of(b, unit);
    let mut low = NONE;
    for i in 0..o.count {
        let u = o.units[i];
        low = lower_in(b, u, low);
    }
    low
}

// The least value of a shrinking node of the tree, where it is floored; else a number that no length reaches. A growth by more is refused by BELOW.
pub fn least_shrinking(b: &[u64; WORDS], unit: usize) -> u64
    requires fit { Fit b.now }
    requires unit_bound { unit < 8 }
    requires unit_value { (interface (view b.now) unit).parent ≡ None }
    ensures { Least b.now unit result }
{
    let low = lowest(b, unit);
    low - Node::OFFSET
}
