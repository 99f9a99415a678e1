#![tactic(auto)]
// The reads of present nodes, on words that hold a sound bench: how many a tree has, and the next one at or after an index. They look at the maps of the
// tree's interfaces and pass over emptied slots unread. None changes the bench. Assumes nothing.
ghost use Rattle.std.specs.Prelude.{◌≡◌, ◌∷◌, [], leb, ◌+◌, ◌-◌, ◌<◌, ◌≤◌};
ghost use Rattle.slot_map.specs.Slots.{count_to, first_from};
ghost use Rattle.bench_words.specs.Store.{node_at};
ghost use Rattle.ledger_spec.specs.Look.{interface};
ghost use Rattle.ledger_spec.specs.Numbers.{RANGE};
ghost use Rattle.ledger_spec.specs.Tests.{first};
ghost use Rattle.ledger_spec.specs.Reads.{slots_of};
ghost use Rattle.bench_views.specs.Canon.{held_in};
ghost use Rattle.bench_views.specs.Fit.{Fit};
ghost use Rattle.bench_views.specs.View.{view};
ghost use Rattle.read_sound.specs.Shown.{shown_count};
ghost use Rattle.read_present.specs.Present.{present_in, present_of, next_of};
ghost use Rattle.read_present.specs.Shown.{shown_next, hand_in, walk_of};

use bench_words::WORDS;
use kinds::{Handle, NodeIndex, numbers};
use read_sound::Counted;

// A number, and the next present node with its index: 0 and nothing where there is none.
#[derive(Clone, Copy)]
pub struct Next {
    pub number: u8,
    pub index: NodeIndex,
    pub node: Option<Handle>,
}

// How many slots of an interface hold a node.
fn marked(b: &[u64; WORDS], u: usize) -> u64
    requires fit { Fit b.now }
    requires u_bound { u < 8 }
    ensures { (result ≡ count_to (held_in (node_at b.now) u) 64) × (result ≤ 64) }
{
    let map = bench_words::load_map(b, u);
    slot_map::count(map)
}

// How many slots of a tree hold a node, halves added.
fn total(b: &[u64; WORDS], unit: usize) -> u64
    requires fit { Fit b.now }
    requires unit_bound { unit < 8 }
    requires unit_value { (interface (view b.now) unit).parent ≡ None }
    ensures { result ≡ present_in (slots_of (view b.now) unit) }
{
    let o = bench_orders::order_of(b, unit);
    let mut sum: u64 = 0;
    for u in &o.units[..o.count] {
        sum += marked(b, *u);
    }
    sum
}

// How many present nodes the tree has.
pub fn present_count(b: &[u64; WORDS], unit: u8) -> Counted
    requires { Fit b.now }
    ensures { shown_count result ≡ present_of (view b.now) unit }
{
    let number = read_sound::unit_number(b, unit);
    if number != 0 {
        return Counted { number, count: 0 };
    }
    let count = total(b, unit as usize);
    Counted { number: 0, count }
}

// The lowest slot of an interface, from one on, that holds a node.
fn next_in(b: &[u64; WORDS], u: usize, from: u64) -> Option<u8>
    requires fit { Fit b.now }
    requires u_bound { u < 8 }
    ensures { result ≡ first_from (held_in (node_at b.now) u) from (64 - from) }
{
    if 64 <= from {
        return None;
    }
    let map = bench_words::load_map(b, u);
    slot_map::next_from(map, from as u8)
}

// How much of an index is left after so many slots.
fn rest(index: u64, passed: u64) -> u64
    ensures { result ≡ index - passed }
{
    if passed < index {
        return index - passed;
    }
    0
}

// A node found: slot s of interface u, so many slots before that interface.
fn reached(b: &[u64; WORDS], u: usize, s: u8, passed: u64) -> Next
    requires { (u < 8) × (s < 64) × (passed ≤ 512) }
    ensures { shown_next result ≡ (0, (passed + s, Some (hand_in (node_at b.now) u s))) }
{
    let n = bench_words::load_node(b, u * 64 + (s as usize));
    let serial = n.serial;
    Next {
        number: 0,
        index: NodeIndex((passed + (s as u64)) as u32),
        node: Some(Handle {
            unit: u as u8,
            slot: s,
            serial,
        }),
    }
}

// RANGE at the count and past it.
fn past(index: u64, count: u64) -> u8
    ensures { result ≡ first ((leb count index, RANGE) ∷ []) }
{
    if count <= index {
        return numbers::RANGE;
    }
    0
}

// The tree's interfaces one after the other, from the index on: the first node met, or that the index is past the count.
fn walk(b: &[u64; WORDS], unit: usize, index: u64) -> Next
    requires fit { Fit b.now }
    requires unit_bound { unit < 8 }
    requires unit_value { (interface (view b.now) unit).parent ≡ None }
    ensures { shown_next result ≡ walk_of (view b.now) unit index }
{
    let o = bench_orders::order_of(b, unit);
    let mut passed: u64 = 0;
    for u in &o.units[..o.count] {
        let found = next_in(b, *u, rest(index, passed));
        if let Some(s) = found {
            return reached(b, *u, s, passed);
        }
        let f = bench_words::load_interface(b, *u);
        passed += f.used;
    }
    let number = past(index, passed);
    Next {
        number,
        index: NodeIndex(0),
        node: None,
    }
}

// The next present node at or after an index of the tree, with its own index; nothing if all slots from there on were emptied; RANGE (18) at or past the count.
pub fn next_present(b: &[u64; WORDS], unit: u8, index: NodeIndex) -> Next
    requires { Fit b.now }
    ensures { shown_next result ≡ next_of (view b.now) unit index.0 }
{
    let number = read_sound::unit_number(b, unit);
    if number != 0 {
        return Next {
            number,
            index: NodeIndex(0),
            node: None,
        };
    }
    walk(b, unit as usize, index.0 as u64)
}
