#![tactic(auto)]
// The check's walk along a tree's slots by index, plainly or strictly: the first finding, a verdict and an index. Everything here only reads the bench;
// where nodes lie in their nests is noted in a lent table, for this walk and a later one. Assumes nothing.
ghost use Rattle.std.specs.Prelude.{◌≡◌, ◌<◌, ◌≤◌};
ghost use Rattle.bench_words.specs.Store.{node_at};
ghost use Rattle.kinds.specs.declared.Class.TheVariants.{Blossom};
ghost use Rattle.ledger_spec.specs.Look.{interface};
ghost use Rattle.bench_views.specs.Fit.{Fit};
ghost use Rattle.bench_views.specs.View.{view};
ghost use Rattle.bench_orders.specs.Order.{AtIndex};
ghost use Rattle.bench_vertices.specs.Under.{Placed};
ghost use Rattle.check_places.specs.Places.{Places};
ghost use Rattle.check_seen.specs.Met.{Keeps};
ghost use Rattle.check_nests.specs.Nest.{Nests};
ghost use Rattle.check_walks.specs.Walks.{Ringed, Steps, Walks};

use bench_words::WORDS;
use check_nests::SLOTS;
use kinds::{Class, NodeIndex};

// A verdict and an index; both 0 where nothing was found.
#[derive(Clone, Copy)]
pub struct Judged {
    pub verdict: u8,
    pub index: NodeIndex,
}

// The same, and how many vertices were met.
#[derive(Clone, Copy)]
struct Step {
    verdict: u8,
    index: NodeIndex,
    count: usize,
}

// What a slot without a finding or with one tells.
fn told(verdict: u8, index: NodeIndex, count: usize) -> Step
    ensures { result ≡ record { verdict = verdict; index = index; count = count } }
{
    Step {
        verdict,
        index,
        count,
    }
}

// The circle of the blossom at position p, whose nest is noted first.
fn look_circle(
    b: &[u64; WORDS],
    unit: usize,
    p: usize,
    t: &mut [u64; SLOTS],
    strict: bool,
) -> Judged
    requires fit { Fit b.now }
    requires unit_bound { unit < 8 }
    requires unit_value { (interface (view b.now) unit).parent ≡ None }
    requires placed { Placed b.now p }
    requires p_value { (node_at b.now p).class ≡ Blossom }
    requires nests { Nests b.now t.old }
    ensures { Ringed b.now unit p strict result × Nests b.now t.new }
{
    check_nests::note(b, p, t);
    let f = check_circles::circle_verdict(b, p, t, strict);
    if f.verdict == 0 {
        return Judged {
            verdict: 0,
            index: NodeIndex(0),
        };
    }
    Judged {
        verdict: f.verdict,
        index: bench_orders::index_of(b, unit, f.node),
    }
}

// One slot: at position p, with index k.
fn look(
    b: &[u64; WORDS],
    unit: usize,
    p: usize,
    k: usize,
    met: &mut [u32; check_seen::WORDS],
    n: usize,
    t: &mut [u64; SLOTS],
    strict: bool,
) -> Step
    requires fit { Fit b.now }
    requires unit_bound { unit < 8 }
    requires unit_value { (interface (view b.now) unit).parent ≡ None }
    requires at_index { AtIndex b.now unit k p }
    requires k_bound { (k < 512) × (n ≤ k) }
    requires keeps { Keeps met.old n }
    requires nests { Nests b.now t.old }
    ensures { Steps b.now unit strict k met.old n met.new result × Nests b.now t.new }
{
    match bench_words::load_node(b, p).class {
        Class::Absent => told(0, NodeIndex(0), n),
        Class::Defect(v) => {
            if strict {
                return told(0, NodeIndex(0), n);
            }
            if check_seen::meet(met, n, v.0) {
                return told(1, NodeIndex(k as u32), n);
            }
            told(0, NodeIndex(0), n + 1)
        }
        Class::Blossom => {
            let j = look_circle(b, unit, p, t, strict);
            told(j.verdict, j.index, n)
        }
    }
}

// The first `count` places are those of a tree's slots.
pub fn walk(
    b: &[u64; WORDS],
    unit: usize,
    places: &[usize; check_places::SLOTS],
    count: usize,
    t: &mut [u64; SLOTS],
    strict: bool,
) -> Judged
    requires fit { Fit b.now }
    requires unit_bound { unit < 8 }
    requires unit_value { (interface (view b.now) unit).parent ≡ None }
    requires places { Places b.now unit places.now count }
    requires nests { Nests b.now t.old }
    ensures { Walks b.now unit strict result × Nests b.now t.new }
{
    let mut met = [0u32; check_seen::WORDS];
    let mut n: usize = 0;
    for (k, p) in places[..count].iter().enumerate() {
        let s = look(b, unit, *p, k, &mut met, n, t, strict);
        if s.verdict != 0 {
            return Judged {
                verdict: s.verdict,
                index: s.index,
            };
        }
        n = s.count;
    }
    Judged {
        verdict: 0,
        index: NodeIndex(0),
    }
}
