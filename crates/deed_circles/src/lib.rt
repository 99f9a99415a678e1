#![tactic(auto)]
// The work of add blossom and expand, over the words that the caller lends, against the plain ledger's own definitions. Members come as packed
// handles, their touching handles two a member, or none. No refusal is left: each asks that its tests pass on words that fit. Assumes nothing.
ghost use Rattle.std.specs.Prelude.{◌≡◌, false, ◌+◌, ◌*◌, ◌/◌, ◌%◌, ◌<◌, ◌≤◌, length};
ghost use Rattle.slot_map.specs.Slots.{put};
ghost use Rattle.bench_words.specs.Codec.{handle_of};
ghost use Rattle.bench_words.specs.Store.{node_at, interface_at, store_node, map_at, store_map};
ghost use Rattle.ledger_spec.specs.Tests.{first};
ghost use Rattle.ledger_spec.specs.Refuse.{blossom_tests, expand_tests};
ghost use Rattle.ledger_spec.specs.Deeds.{new_handle, add_blossom, remove_blossom};
ghost use Rattle.ledger_spec.specs.Named.{handle_named};
ghost use Rattle.bench_views.specs.Records.{Steady, Ranged, rate_of};
ghost use Rattle.bench_views.specs.View.{sum_up, view};
ghost use Rattle.bench_views.specs.Fit.{Fit, Done};
ghost use Rattle.deed_circles.specs.Given.{spot_of, hands_given, pairs_given, next_spot, touch_word};
ghost use Rattle.deed_circles.specs.Members.{seat_of, taken_node, freed_node};

use bench_words::WORDS;
use deed_nodes::Seat;
use kinds::{Class, GrowState, Handle, Serial};

// What a member adds to its blossom: its size, and its share of the speed, one higher than it is.
#[derive(Clone, Copy)]
struct Share {
    size: u64,
    rate: u64,
}

// The position that a packed handle names.
pub fn spot(w: u64) -> usize
    ensures { (result ≡ spot_of w) × (result < 512) }
{
    (w % 8 * 64 + w / 8 % 64) as usize
}

// The position of the member after member i, or 0.
fn following(members: &[u64], i: usize) -> u64
    requires { i < length members.now }
    ensures { result ≡ next_spot members.now i }
{
    if i + 1 < members.len() {
        return spot(members[i + 1]) as u64;
    }
    0
}

// A touching handle of member i, the first or the second: itself where none are given.
fn touch(members: &[u64], touching: &[u64], i: usize, d: usize) -> Handle
    requires { (i < length members.now) × (d < 2) × (length members.now ≤ 64) × ((length touching.now ≡ 0 → ⊥) → length touching.now ≡ length members.now * 2) }
    ensures { result ≡ handle_of (touch_word members.now touching.now i d) }
{
    if touching.len() == 0 {
        return bench_words::handle_of(members[i]);
    }
    bench_words::handle_of(touching[i * 2 + d])
}

// The seat of member i in the circle of q.
fn seat(members: &[u64], touching: &[u64], i: usize, q: Handle) -> Seat
    requires { (i < length members.now) × (length members.now ≤ 64) × ((length touching.now ≡ 0 → ⊥) → length touching.now ≡ length members.now * 2) }
    ensures { result ≡ seat_of members.now touching.now q i }
{
    let next = following(members, i);
    let left = touch(members, touching, i, 0);
    let right = touch(members, touching, i, 1);
    Seat {
        parent: Some(q),
        place: i as u64,
        next,
        left,
        right,
    }
}

// T of an interface, where t is that of `unit`, in which most members of a circle stand.
fn total_of(b: &[u64; WORDS], home: usize, unit: usize, t: u64) -> u64
    requires { Steady b.now × (home < 8) × (t ≡ sum_up 8 (interface_at b.now) unit) }
    ensures { (result ≡ sum_up 8 (interface_at b.now) home) × (result ≤ 8796093022208) }
{
    if home == unit {
        return t;
    }
    let up = bench_trees::climb(b, home);
    up.total
}

// The member that word w names stays, in its seat; what it adds. T of `unit` is t.
fn take_in(b: &mut [u64; WORDS], w: u64, unit: usize, t: u64, seat: Seat) -> Share
    requires { Steady b.old × Ranged (node_at b.old (spot_of w)) × (t ≡ sum_up 8 (interface_at b.old) unit) }
    ensures { (b.new ≡ store_node b.old (spot_of w) (taken_node (interface_at b.old) (node_at b.old) (spot_of w) seat)) × (result.size ≡ (node_at b.old (spot_of w)).size) × (result.rate ≡ rate_of (node_at b.old (spot_of w)).state) × (result.rate ≤ 2) }
{
    let k = spot(w);
    let total = total_of(b, k / 64, unit, t);
    let n = bench_words::load_node(b, k);
    let old = n.state;
    let m = deed_nodes::remark(n, total, GrowState::Stay, seat);
    bench_words::store_node(b, k, m);
    let rate = bench_trees::rate_of(old);
    Share { size: n.size, rate }
}

// Adds a blossom: its members stay and get their seats; then the blossom, growing from value 0. Gives its handle.
pub fn add_blossom(b: &mut [u64; WORDS], unit: usize, members: &[u64], touching: &[u64]) -> Handle
    requires { Fit b.old × (first (blossom_tests (view b.old) unit (hands_given members.now) (pairs_given touching.now)) ≡ 0) }
    ensures { Done b.new (add_blossom (view b.old) unit (hands_given members.now) (pairs_given touching.now)) × (handle_named result ≡ new_handle (view b.old) unit) }
{
    let f = bench_words::load_interface(b, unit);
    let t = bench_trees::lag(f.marks.plain, f.progress);
    let slot = bench_slots::free_slot(b, unit);
    let next = bench_words::load_next(b);
    let serial = Serial(next as u32);
    let q = Handle {
        unit: unit as u8,
        slot,
        serial,
    };
    let mut size: u64 = 0;
    let mut speed = f.speed;
    for (i, w) in members.iter().enumerate() {
        let s = take_in(b, *w, unit, t, seat(members, touching, i, q));
        size += s.size;
        speed = speed + 1 - s.rate;
    }
    let first = spot(members[0]) as u64;
    let n = deed_nodes::new_node(serial, Class::Blossom, size, first, members.len() as u64, t);
    deed_nodes::push(b, unit, slot, n, speed + 1);
    q
}

// The member at a position loses its seat and grows; the position of the next. T of `unit` is t.
fn release(b: &mut [u64; WORDS], at: u64, unit: usize, t: u64) -> u64
    requires { (at < 512) × Steady b.old × Ranged (node_at b.old at) × (t ≡ sum_up 8 (interface_at b.old) unit) }
    ensures { (b.new ≡ store_node b.old at (freed_node (interface_at b.old) (node_at b.old) at)) × (result ≡ (node_at b.old at).next) }
{
    let k = at as usize;
    let total = total_of(b, k / 64, unit, t);
    let n = bench_words::load_node(b, k);
    let m = deed_nodes::remark(n, total, GrowState::Grow, deed_nodes::no_seat());
    bench_words::store_node(b, k, m);
    n.next
}

// Takes a slot out of the map of its interface.
fn unmark(b: &mut [u64; WORDS], unit: usize, slot: u8)
    requires { (unit < 8) × (slot < 64) }
    ensures { b.new ≡ store_map b.old unit (put (map_at b.old unit) slot false) }
{
    let map = bench_words::load_map(b, unit);
    bench_words::store_map(b, unit, slot_map::without(map, slot));
}

// Expands a blossom: it leaves, and its members, which stayed, grow. The sum of its tree, whose top is `unit`, stays.
pub fn remove_blossom(b: &mut [u64; WORDS], unit: usize, h: Handle)
    requires { Fit b.old × (first (expand_tests (view b.old) unit (handle_named h)) ≡ 0) }
    ensures { Done b.new (remove_blossom (view b.old) (handle_named h)) }
{
    let k = (h.unit as usize) * 64 + (h.slot as usize);
    let n = bench_words::load_node(b, k);
    let f = bench_words::load_interface(b, unit);
    let t = bench_trees::lag(f.marks.plain, f.progress);
    let mut at = n.first;
    for _ in 0..n.count {
        at = release(b, at, unit, t);
    }
    let loss = bench_trees::rate_of(n.state);
    bench_words::store_node(b, k, deed_nodes::no_node());
    deed_nodes::pace(b, unit, f.speed + 1 + n.count - loss);
    unmark(b, h.unit as usize, h.slot);
}
