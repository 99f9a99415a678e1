#![tactic(auto)]
// The total of the values of a tree's present nodes, 2^62 higher than it is, as a stored sum stands. Everything here only reads. Assumes nothing.
ghost use Rattle.std.specs.Prelude.{◌≡◌, ◌/◌, ◌%◌, ◌<◌, ◌≤◌};
ghost use Rattle.bench_words.specs.Store.{interface_at};
ghost use Rattle.ledger_spec.specs.Reads.{slots_of};
ghost use Rattle.ledger_spec.specs.Check.{total_of};
ghost use Rattle.bench_views.specs.Fit.{Fit};
ghost use Rattle.bench_views.specs.Records.{Steady};
ghost use Rattle.bench_views.specs.View.{off, sum_up, view};
ghost use Rattle.check_places.specs.Places.{Places};
ghost use Rattle.check_totals.specs.Total.{Added};

use bench_words::{Interface, Node, WORDS};

// T of an interface: that of the slot before, if it is of the same interface.
fn progress(b: &[u64; WORDS], u: usize, last: usize, t: u64) -> u64
    requires steady { Steady b.now }
    requires u_bound { u < 8 }
    requires t_value { t ≡ sum_up 8 (interface_at b.now) last }
    ensures { result ≡ sum_up 8 (interface_at b.now) u }
{
    if u == last {
        return t;
    }
    let c = bench_trees::climb(b, u);
    c.total
}

// Adds the value of the node in a slot, if there is one.
fn add(b: &[u64; WORDS], k: usize, t: u64, sum: u64) -> u64
    requires fit { Fit b.now }
    requires k_bound { k / 64 < 8 }
    requires k_bound_2 { k % 64 < (interface_at b.now (k / 64)).used }
    requires t_value { t ≡ sum_up 8 (interface_at b.now) (k / 64) }
    requires le_sum { 2305843009213693952 ≤ sum }
    requires sum_bound { sum ≤ 6917529027641081856 }
    ensures { Added b.now k sum result }
{
    let n = bench_words::load_node(b, k);
    let class = n.class;
    if bench_links::is_absent(class) {
        return sum;
    }
    let state = n.state;
    sum + bench_trees::valued(state, n.bias, t) - Node::OFFSET
}

// Of the first `count` positions, which are those of a tree's slots.
pub fn total(
    b: &[u64; WORDS],
    unit: usize,
    places: &[usize; check_places::SLOTS],
    count: usize,
) -> u64
    requires fit { Fit b.now }
    requires unit_bound { unit < 8 }
    requires places { Places b.now unit places.now count }
    ensures { off 4611686018427387904 result ≡ total_of (slots_of (view b.now) unit) }
{
    let top = bench_trees::climb(b, unit);
    let mut t = top.total;
    let mut last = unit;
    let mut sum: u64 = Interface::OFFSET;
    for k in &places[..count] {
        t = progress(b, *k / 64, last, t);
        last = *k / 64;
        sum = add(b, *k, t, sum);
    }
    sum
}
