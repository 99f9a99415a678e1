#![tactic(auto)]
// Where each node lies in its nest, noted once a check: its outermost blossom, and how many of that one's vertices come before the node's own. So the
// outermost blossom is a word that is read, and whether a node is under another is told by two words, where a walk up would pass a link a level.
// Only the lent table is written. A slot's word is 0 where nothing is noted, and then the walk up tells. Assumes nothing.
ghost use Rattle.std.specs.Prelude.{◌≡◌, true, ◌<◌, ◌≤◌};
ghost use Rattle.bench_words.specs.Store.{node_at};
ghost use Rattle.ledger_spec.specs.Look.{node_named};
ghost use Rattle.ledger_spec.specs.Named.{handle_named};
ghost use Rattle.ledger_spec.specs.Walk.{parent_in, outermost};
ghost use Rattle.ledger_laws.specs.Clean.{Descends};
ghost use Rattle.bench_views.specs.Fit.{Fit};
ghost use Rattle.bench_views.specs.View.{view, handle_at};
ghost use Rattle.bench_links.specs.Find.{Stands};
ghost use Rattle.bench_vertices.specs.Under.{Placed};
ghost use Rattle.check_nests.specs.Nest.{Nests};

use bench_words::WORDS;
use kinds::Handle;

// As many as the slots of eight interfaces.
pub const SLOTS: usize = 512;

// What the vertices before a node are multiplied by in its word.
const SPAN: u64 = 512;

// The handle of the node at a position.
pub fn handle_at(b: &[u64; WORDS], k: usize) -> Handle
    requires { k < 512 }
    ensures { handle_named result ≡ handle_at (node_at b.now) k }
{
    let n = bench_words::load_node(b, k);
    Handle {
        unit: (k / 64) as u8,
        slot: (k % 64) as u8,
        serial: n.serial,
    }
}

// Notes the members of a blossom that is noted itself, each behind the vertices of those before it.
fn fill(b: &[u64; WORDS], k: usize, t: &mut [u64; SLOTS])
    requires fit { Fit b.now }
    requires k_bound { k < 512 }
    requires nests { Nests b.now t.old }
    ensures { Nests b.now t.new }
{
    let w = t[k];
    if w == 0 {
        return;
    }
    let n = bench_words::load_node(b, k);
    let root = (w - 1) % SPAN;
    let mut x = (w - 1) / SPAN;
    let mut p = n.first;
    for _ in 0..n.count {
        let q = p as usize;
        let y = bench_words::load_node(b, q);
        t[q] = x * SPAN + root + 1;
        x += y.size;
        p = y.next;
    }
}

// The slot after one in a nest: a blossom's first member, else the member beside it or beside the nearest blossom around it; past all slots at the end.
// Nothing rests on the order but time, so that nothing is promised of it.
fn after(b: &[u64; WORDS], k: usize) -> usize
    requires { k < 512 }
    ensures { result ≤ 512 }
{
    let n = bench_words::load_node(b, k);
    if 0 < n.count {
        return (n.first % SPAN) as usize;
    }
    let mut at = k;
    for _ in 0..SPAN {
        let x = bench_words::load_node(b, at);
        let Some(q) = x.parent else {
            return SLOTS;
        };
        at = ((q.unit % 8) as usize) * 64 + ((q.slot % 64) as usize);
        let y = bench_words::load_node(b, at);
        if x.place % SPAN + 1 < y.count {
            return (x.next % SPAN) as usize;
        }
    }
    SLOTS
}

// Notes a node without a parent, and all under it.
fn spread(b: &[u64; WORDS], k: usize, t: &mut [u64; SLOTS])
    requires fit { Fit b.now }
    requires placed { Placed b.now k }
    requires k_value { parent_in (node_named (view b.now) (handle_at (node_at b.now) k)) ≡ None }
    requires nests { Nests b.now t.old }
    ensures { Nests b.now t.new }
{
    t[k] = (k as u64) + 1;
    let mut at = k;
    for _ in 0..SPAN {
        fill(b, at, t);
        at = after(b, at);
        if SLOTS <= at {
            return;
        }
    }
}

// Sees to it that the nest of a node is noted. A node without a parent is its own outermost blossom, and its nest is noted when one further in asks.
pub fn note(b: &[u64; WORDS], k: usize, t: &mut [u64; SLOTS])
    requires fit { Fit b.now }
    requires placed { Placed b.now k }
    requires nests { Nests b.now t.old }
    ensures { Nests b.now t.new }
{
    if t[k] != 0 {
        return;
    }
    let h = handle_at(b, k);
    let o = bench_links::outermost(b, h);
    if o.links == 0 {
        return;
    }
    spread(b, (o.node.unit as usize) * 64 + (o.node.slot as usize), t);
}

// The outermost blossom of a node.
pub fn outer(b: &[u64; WORDS], k: usize, t: &[u64; SLOTS]) -> Handle
    requires fit { Fit b.now }
    requires placed { Placed b.now k }
    requires nests { Nests b.now t.now }
    ensures { (handle_named result ≡ outermost (view b.now) (handle_at (node_at b.now) k)) × Stands b.now (handle_named result) }
{
    let w = t[k];
    if w == 0 {
        return bench_links::outermost(b, handle_at(b, k)).node;
    }
    handle_at(b, ((w - 1) % SPAN) as usize)
}

// Whether the words of two nodes say that the one at k is under the one at m. Where they do not, the walk up tells.
pub fn is_within(b: &[u64; WORDS], m: usize, k: usize, t: &[u64; SLOTS]) -> bool
    requires fit { Fit b.now }
    requires placed { Placed b.now m }
    requires placed_2 { Placed b.now k }
    requires nests { Nests b.now t.now }
    ensures { result ≡ true → Descends (view b.now) (handle_at (node_at b.now) m) (handle_at (node_at b.now) k) }
{
    let v = t[m];
    let w = t[k];
    if v == 0 || w < v || (w - 1) % SPAN != (v - 1) % SPAN {
        return false;
    }
    let above = bench_words::load_node(b, m);
    let below = bench_words::load_node(b, k);
    (w - 1) / SPAN - (v - 1) / SPAN < above.size && below.serial.0 <= above.serial.0
}
