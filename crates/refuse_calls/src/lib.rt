#![tactic(auto)]
// The number that each call is refused by, 0 where it is accepted: its tests in rising order of their numbers, the first that holds. Everything here
// only reads, and none scans the slots. (Add blossom's is where its lists are.) Assumes nothing.
ghost use Rattle.std.specs.Prelude.{◌≡◌, ◌||◌, not, ◌<◌, eqb, leb};
ghost use Rattle.ledger_spec.specs.Look.{interface};
ghost use Rattle.ledger_spec.specs.Named.{handle_named};
ghost use Rattle.ledger_spec.specs.Tests.{first, outside, child, used, floored, same, late};
ghost use Rattle.ledger_spec.specs.Refuse.{defect_tests, state_tests, expand_tests, grow_tests, fuse_tests, mark_tests};
ghost use Rattle.bench_views.specs.Records.{Steady};
ghost use Rattle.bench_views.specs.Canon.{Canon};
ghost use Rattle.bench_views.specs.Fit.{Fit};
ghost use Rattle.bench_views.specs.View.{view};
ghost use Rattle.refuse_calls.specs.Length.{length_tests};
ghost use Rattle.refuse_calls.specs.Named.{named_tests};
ghost use Rattle.refuse_calls.specs.Room.{room_tests};

use bench_words::{Interface, WORDS};
use kinds::{Handle, Serial, numbers};

// No room for one more node: no free slot (14), no serial left (15), or 0.
pub fn room_number(b: &[u64; WORDS], unit: u8) -> u8
    requires canon { Canon b.now }
    requires unit_bound { unit < 8 }
    ensures { result ≡ first (room_tests (view b.now) unit) }
{
    let slot = bench_slots::free_slot(b, unit as usize);
    if Handle::SLOTS <= slot {
        return numbers::FULL;
    }
    let next = bench_words::load_next(b);
    if Serial::PAST <= next {
        return numbers::WORN;
    }
    0
}

// UNIT, CHILD, FULL (14), WORN (15).
pub fn defect_number(b: &[u64; WORDS], unit: u8) -> u8
    requires { Canon b.now }
    ensures { result ≡ first (defect_tests (view b.now) unit) }
{
    let number = read_sound::unit_number(b, unit);
    if number != 0 {
        return number;
    }
    room_number(b, unit)
}

// UNIT, CHILD, LENGTH (5): a length below 0, or one past the progress limit.
fn length_number(b: &[u64; WORDS], unit: u8, length: i64) -> u8
    requires { Steady b.now }
    ensures { result ≡ first (length_tests (view b.now) unit length) }
{
    let number = read_sound::unit_number(b, unit);
    if number != 0 {
        return number;
    }
    if length < 0 {
        return numbers::LENGTH;
    }
    let f = bench_words::load_interface(b, unit as usize);
    if Interface::PROGRESS < f.progress + (length as u64) {
        return numbers::LENGTH;
    }
    0
}

// And BELOW (25): in a floored tree, a length past the value of a node that shrinks.
pub fn grow_number(b: &[u64; WORDS], unit: u8, length: i64) -> u8
    requires { Fit b.now }
    ensures { result ≡ first (grow_tests (view b.now) unit length) }
{
    let number = length_number(b, unit, length);
    if number != 0 {
        return number;
    }
    let low = bench_floors::least_shrinking(b, unit as usize);
    if low < (length as u64) {
        return numbers::BELOW;
    }
    0
}

// UNIT, CHILD, STALE (8), FOREIGN (9): what a call on a node may be refused by first.
pub fn named_number(b: &[u64; WORDS], unit: u8, h: Handle) -> u8
    requires { Canon b.now }
    ensures { result ≡ first (named_tests (view b.now) unit (handle_named h)) }
{
    let number = read_sound::unit_number(b, unit);
    if number != 0 {
        return number;
    }
    if bench_links::find(b, h).is_none() {
        return numbers::STALE;
    }
    if bench_links::is_foreign(b, unit, h) {
        return numbers::FOREIGN;
    }
    0
}

// And INSIDE (11).
pub fn state_number(b: &[u64; WORDS], unit: u8, h: Handle) -> u8
    requires { Canon b.now }
    ensures { result ≡ first (state_tests (view b.now) unit (handle_named h)) }
{
    let number = named_number(b, unit, h);
    if number != 0 {
        return number;
    }
    let node = bench_words::load_node(b, (h.unit as usize) * 64 + (h.slot as usize));
    if node.parent.is_some() {
        return numbers::INSIDE;
    }
    0
}

// And KIND (10) before INSIDE.
pub fn expand_number(b: &[u64; WORDS], unit: u8, h: Handle) -> u8
    requires { Canon b.now }
    ensures { result ≡ first (expand_tests (view b.now) unit (handle_named h)) }
{
    let number = named_number(b, unit, h);
    if number != 0 {
        return number;
    }
    let n = bench_words::load_node(b, (h.unit as usize) * 64 + (h.slot as usize));
    if !n.class.is_blossom() {
        return numbers::KIND;
    }
    if n.parent.is_some() {
        return numbers::INSIDE;
    }
    0
}

fn any_outside(p: u8, l: u8, r: u8) -> bool
    ensures { result ≡ (outside p || (outside l || outside r)) }
{
    8 <= p || 8 <= l || 8 <= r
}

#[tactic(auto, using(crate::proofs::Fuses::child_is))]
fn is_child(b: &[u64; WORDS], unit: u8) -> bool
    requires { unit < 8 }
    ensures { result ≡ child (view b.now) unit }
{
    bench_words::load_interface(b, unit as usize)
        .parent
        .is_some()
}

fn any_child(b: &[u64; WORDS], p: u8, l: u8, r: u8) -> bool
    requires { (p < 8) × (l < 8) × (r < 8) }
    ensures { result ≡ (child (view b.now) p || (child (view b.now) l || child (view b.now) r)) }
{
    is_child(b, p) || is_child(b, l) || is_child(b, r)
}

// The halves are two, and numbered below their parent.
fn out_of_order(p: u8, l: u8, r: u8) -> bool
    ensures { result ≡ (eqb l r || (leb p l || leb p r)) }
{
    l == r || p <= l || p <= r
}

// Has nodes, has grown, or has been fused.
#[tactic(auto, using(crate::proofs::Fuses::used_is))]
fn is_used(b: &[u64; WORDS], unit: u8) -> bool
    requires { unit < 8 }
    ensures { result ≡ used (interface (view b.now) unit) }
{
    let f = bench_words::load_interface(b, unit as usize);
    f.used != 0 || f.progress != 0 || f.left != 0
}

#[tactic(auto, using(crate::proofs::Fuses::floored_is))]
fn is_floored(b: &[u64; WORDS], unit: u8) -> bool
    requires { unit < 8 }
    ensures { result ≡ floored (view b.now) unit }
{
    bench_words::load_interface(b, unit as usize).marks.floored
}

// One of two is floored, and the other not.
fn floors_differ(b: &[u64; WORDS], l: u8, r: u8) -> bool
    requires { (l < 8) × (r < 8) }
    ensures { result ≡ not (same (floored (view b.now) l) (floored (view b.now) r)) }
{
    is_floored(b, l) != is_floored(b, r)
}

// UNIT, CHILD, PAIR (16), USED (17), MARK (26).
pub fn fuse_number(b: &[u64; WORDS], parent: u8, left: u8, right: u8) -> u8
    ensures { result ≡ first (fuse_tests (view b.now) parent left right) }
{
    if any_outside(parent, left, right) {
        return numbers::UNIT;
    }
    if any_child(b, parent, left, right) {
        return numbers::CHILD;
    }
    if out_of_order(parent, left, right) {
        return numbers::PAIR;
    }
    if is_used(b, parent) {
        return numbers::USED;
    }
    if floors_differ(b, left, right) {
        return numbers::MARK;
    }
    0
}

// Has used a slot, or has been fused: too late for a mark. Progress does not hinder.
#[tactic(auto, using(crate::proofs::Fuses::late_is))]
fn is_late(b: &[u64; WORDS], unit: u8) -> bool
    requires { unit < 8 }
    ensures { result ≡ late (interface (view b.now) unit) }
{
    let f = bench_words::load_interface(b, unit as usize);
    f.used != 0 || f.left != 0
}

// UNIT, CHILD, MARK (26).
pub fn mark_number(b: &[u64; WORDS], unit: u8) -> u8
    ensures { result ≡ first (mark_tests (view b.now) unit) }
{
    let number = read_sound::unit_number(b, unit);
    if number != 0 {
        return number;
    }
    if is_late(b, unit) {
        return numbers::MARK;
    }
    0
}
