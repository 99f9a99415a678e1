#![tactic(auto)]
// The work of grow, set state and add defect, over the words that the caller lends, against the plain ledger's own definitions; and the steps
// that blossoms need too. No refusal is left: each asks that its tests pass on words that fit. Assumes nothing.
ghost use Rattle.std.specs.Prelude.{◌≡◌, suc, max, ◌+◌, ◌-◌, ◌*◌, ◌<◌, ◌≤◌, pos, length, get_or};
ghost use Rattle.bench_words.specs.Store.{interface_at};
ghost use Rattle.ledger_spec.specs.Tests.{first};
ghost use Rattle.ledger_spec.specs.Refuse.{defect_tests, state_tests, grow_tests};
ghost use Rattle.ledger_spec.specs.Change.{mark};
ghost use Rattle.ledger_spec.specs.Deeds.{new_handle, add_defect, grow_by};
ghost use Rattle.ledger_spec.specs.Named.{state_named, handle_named};
ghost use Rattle.bench_views.specs.Records.{Ranged, no_node};
ghost use Rattle.bench_views.specs.View.{view};
ghost use Rattle.bench_views.specs.Fit.{Fit, Done};
ghost use Rattle.deed_nodes.specs.Steps.{no_seat, new_node, remarked, paced, noted, Room, pushed};

use bench_words::{Node, WORDS};
use kinds::{Class, GrowState, Handle, Serial, Vertex};

// Where a node stands: the blossom that it is a member of, its place in the circle, the position of the next member, its two touching handles.
#[derive(Clone, Copy)]
pub struct Seat {
    pub parent: Option<Handle>,
    pub place: u64,
    pub next: u64,
    pub left: Handle,
    pub right: Handle,
}

// The seat of a node without a parent.
pub fn no_seat() -> Seat
    ensures { result ≡ no_seat }
{
    let nobody = Handle::nobody();
    Seat {
        parent: None,
        place: 0,
        next: 0,
        left: nobody,
        right: nobody,
    }
}

// An empty slot: all its words are zero.
pub fn no_node() -> Node
    ensures { result ≡ no_node }
{
    let nobody = Handle::nobody();
    Node {
        serial: Serial(0),
        class: Class::Absent,
        state: GrowState::Stay,
        parent: None,
        place: 0,
        next: 0,
        left: nobody,
        right: nobody,
        bias: 0,
        size: 0,
        first: 0,
        count: 0,
    }
}

// A new node, growing from value 0 at T = t. The first position and the count are of its circle: both 0 for a defect.
pub fn new_node(serial: Serial, class: Class, size: u64, first: u64, count: u64, t: u64) -> Node
    requires { t ≤ 1099511627776 }
    ensures { result ≡ new_node serial.0 class size first count t }
{
    let nobody = Handle::nobody();
    Node {
        serial,
        class,
        state: GrowState::Grow,
        parent: None,
        place: 0,
        next: 0,
        left: nobody,
        right: nobody,
        bias: Node::OFFSET - t,
        size,
        first,
        count,
    }
}

// The node with another state and seat. Its value stays, at T = t.
pub fn remark(n: Node, t: u64, state: GrowState, seat: Seat) -> Node
    requires { Ranged n × (t ≤ 8796093022208) }
    ensures { result ≡ remarked n t state seat }
{
    let serial = n.serial;
    let class = n.class;
    let old = n.state;
    let value = bench_trees::valued(old, n.bias, t);
    let bias = bench_trees::biased(state, value, t);
    let parent = seat.parent;
    let left = seat.left;
    let right = seat.right;
    Node {
        serial,
        class,
        state,
        parent,
        place: seat.place,
        next: seat.next,
        left,
        right,
        bias,
        size: n.size,
        first: n.first,
        count: n.count,
    }
}

// Sets the speed of an interface.
pub fn pace(b: &mut [u64; WORDS], unit: usize, speed: u64)
    requires { unit < 8 }
    ensures { b.new ≡ paced b.old unit speed }
{
    let mut f = bench_words::load_interface(b, unit);
    f.speed = speed;
    bench_words::store_interface(b, unit, f);
}

// How many slots count as used once one more is filled: up to the highest that was.
fn used_with(used: u64, slot: u8) -> u64
    ensures { result ≡ max used (suc slot) }
{
    if used <= (slot as u64) {
        return (slot as u64) + 1;
    }
    used
}

// Puts a node into a slot of an interface, whose speed then is `speed`, marks the slot in the map, and counts the serial.
pub fn push(b: &mut [u64; WORDS], unit: usize, slot: u8, n: Node, speed: u64)
    requires { (unit < 8) × (slot < 64) × (get_or b.old 0 0 < 4294967296) }
    ensures { b.new ≡ pushed b.old unit slot n speed }
{
    let mut home = bench_words::load_interface(b, unit);
    home.used = used_with(home.used, slot);
    home.speed = speed;
    let next = bench_words::load_next(b);
    let map = bench_words::load_map(b, unit);
    bench_words::store_node(b, unit * 64 + (slot as usize), n);
    bench_words::store_interface(b, unit, home);
    bench_words::store_map(b, unit, slot_map::with(map, slot));
    bench_words::store_next(b, next + 1);
}

// Counts a growth of an interface: its progress and its sum.
fn note_growth(b: &mut [u64; WORDS], unit: usize, length: u64)
    requires unit_bound { unit < 8 }
    requires room { Room (interface_at b.old unit) length }
    ensures { b.new ≡ noted b.old unit length }
{
    let mut f = bench_words::load_interface(b, unit);
    f.progress = f.progress + length;
    f.sum = f.sum + length * f.speed - length * 1024;
    bench_words::store_interface(b, unit, f);
}

// Grows a tree by a length, at its top: in the plain engine every node of it first.
pub fn grow_by(b: &mut [u64; WORDS], unit: usize, length: u64)
    requires { Fit b.old × (first (grow_tests (view b.old) unit (pos length)) ≡ 0) }
    ensures { Done b.new (grow_by (view b.old) unit (pos length)) }
{
    let f = bench_words::load_interface(b, unit);
    if f.marks.plain {
        deed_raises::raise_tree(b, unit, length);
        note_growth(b, unit, length);
        return;
    }
    note_growth(b, unit, length);
}

// Sets the state of a node without a parent; the speed of its tree, whose top is `unit`, follows.
pub fn set_state(b: &mut [u64; WORDS], unit: usize, h: Handle, state: GrowState)
    requires { Fit b.old × (first (state_tests (view b.old) unit (handle_named h)) ≡ 0) }
    ensures { Done b.new (mark (view b.old) (handle_named h) (state_named state) None) }
{
    let home = h.unit as usize;
    let k = home * 64 + (h.slot as usize);
    let up = bench_trees::climb(b, home);
    let n = bench_words::load_node(b, k);
    let f = bench_words::load_interface(b, unit);
    let old = n.state;
    let m = remark(n, up.total, state, no_seat());
    bench_words::store_node(b, k, m);
    let gain = bench_trees::rate_of(state);
    let loss = bench_trees::rate_of(old);
    pace(b, unit, f.speed + gain - loss);
}

// Adds a defect, growing from value 0, and gives its handle. (The casts of the vertex tell the proof its range.)
pub fn add_defect(b: &mut [u64; WORDS], unit: usize, vertex: Vertex) -> Handle
    requires { Fit b.old × (first (defect_tests (view b.old) unit) ≡ 0) }
    ensures { Done b.new (add_defect (view b.old) unit vertex.0) × (handle_named result ≡ new_handle (view b.old) unit) }
{
    let v = vertex.0 as u64;
    let f = bench_words::load_interface(b, unit);
    let t = bench_trees::lag(f.marks.plain, f.progress);
    let slot = bench_slots::free_slot(b, unit);
    let next = bench_words::load_next(b);
    let serial = Serial(next as u32);
    let n = new_node(serial, Class::Defect(Vertex(v as u32)), 1, 0, 0, t);
    push(b, unit, slot, n, f.speed + 1);
    Handle {
        unit: unit as u8,
        slot,
        serial,
    }
}
