#![tactic(auto)]
// A stop is added to a group in place: it is found by its vertex, comes in where it stands, replaces a stop or is dropped, or becomes a conflict with
// one. The words hold a sound group: the call requires it, and leaves them so. Assumes nothing.
ghost use Rattle.std.specs.Prelude.{◌≡◌, true, ◌&&◌, ◌∷◌, ◌+◌, ◌≤◌, ◌<◌, eqb, ltb, length, get_or};
ghost use Rattle.std.proofs.lemmas.List.Edits.{sets};
ghost use Rattle.kinds.specs.Obstacles.{is_stop};
ghost use Rattle.group_lent.specs.Forms.{five_words, is_form, obstacle_of};
ghost use Rattle.group_lent.specs.Place.{listed, stopped, Listing, SoundGroup};
ghost use Rattle.group_lent_takes.specs.Made.{Added};
ghost use Rattle.group_lent_stops.specs.Stops.{spot, place_in, lifted, inserted, joined, meet_out, stop_out, added_words};

use group_lent::{Five, GROUP};
use kinds::numbers;

// How many stops stand before vertex v.
pub fn place_of(w: &[u64; GROUP], v: u64) -> usize
    requires { Listing w.now }
    ensures { result ≡ place_in w.now v }
{
    let m = w[4] as usize;
    for p in 0..m {
        if v <= w[645 + p * 6] {
            return p;
        }
    }
    m
}

// Whether stop p is pending at vertex v.
pub fn is_held(w: &[u64; GROUP], p: usize, v: u64) -> bool
    requires { stopped w.now ≤ 128 }
    ensures { result ≡ (ltb p (stopped w.now) && eqb (get_or w.now (spot p) 0) v) }
{
    let m = w[4] as usize;
    if m <= p {
        return false;
    }
    w[645 + p * 6] == v
}

// The k words from at on go to at + 6.
fn lift(w: &mut [u64; GROUP], at: usize, k: usize)
    requires { (length w.old ≡ 1413) × (at + 6 + k ≤ 1413) }
    ensures { w.new ≡ lifted w.old at k }
{
    w.copy_within(at..at + k, at + 6);
}

fn put_stop(w: &mut [u64; GROUP], at: usize, v: u64, f: Five)
    requires { at + 6 ≤ 1413 }
    ensures { w.new ≡ sets w.old at (v ∷ five_words f) }
{
    w[at] = v;
    group_lent::put_five(w, at + 1, f);
}

fn insert(w: &mut [u64; GROUP], p: usize, v: u64, f: Five)
    requires { (length w.old ≡ 1413) × ((p ≤ stopped w.old) × (stopped w.old < 128)) }
    ensures { w.new ≡ inserted w.old f v p }
{
    let m = w[4] as usize;
    let at = 645 + p * 6;
    lift(w, at, (m - p) * 6);
    put_stop(w, at, v, f);
    w[4] = (m + 1) as u64;
}

fn join(w: &mut [u64; GROUP], p: usize, f: Five)
    requires { (length w.old ≡ 1413) × ((p < stopped w.old) × ((stopped w.old ≤ 128) × (listed w.old < 128))) }
    ensures { w.new ≡ joined w.old f p }
{
    let n = w[3] as usize;
    let m = w[4] as usize;
    let at = 645 + p * 6;
    let y = group_lent::five_at(w, at + 1);
    let e = Five {
        kind: 2,
        a: f.b,
        b: f.c,
        c: y.b,
        d: y.c,
    };
    group_lent::put_five(w, 5 + n * 5, e);
    group_lent::slide(w, at, (m - 1 - p) * 6);
    w[3] = (n + 1) as u64;
    w[4] = (m - 1) as u64;
}

// It comes to stop p, which is pending at its vertex v.
fn meet(w: &mut [u64; GROUP], p: usize, v: u64, f: Five) -> u8
    requires { (length w.old ≡ 1413) × ((p < stopped w.old) × (stopped w.old ≤ 128)) }
    ensures { (result, w.new) ≡ meet_out w.old f v p }
{
    if f.kind == 5 {
        return 0;
    }
    let at = 645 + p * 6;
    if w[at + 1] == 5 {
        put_stop(w, at, v, f);
        return 0;
    }
    if group_lent::same_node(f.b, w[at + 3]) {
        return 0;
    }
    if 128 <= w[3] {
        return numbers::ROOM;
    }
    join(w, p, f);
    0
}

// A growth becomes conflicts with the one stop. ROOM (20) where there are 128 already, or 128 listed where two stops become a conflict.
pub fn add_stop(w: &mut [u64; GROUP], f: Five, v: u64) -> u8
    requires sound_group { SoundGroup w.old }
    requires f_value { (is_form f ≡ true) × ((is_stop (obstacle_of f) ≡ true) × (v < 4294967296)) }
    ensures { Added f v w.old (stop_out w.old f v).1 result w.new }
{
    if w[0] == 1 {
        put_stop(w, 645, v, f);
        let head = Five {
            kind: 2,
            a: 0,
            b: 0,
            c: 0,
            d: 1,
        };
        group_lent::put_five(w, 0, head);
        return 0;
    }
    let p = place_of(w, v);
    if is_held(w, p, v) {
        return meet(w, p, v, f);
    }
    if 128 <= w[4] {
        return numbers::ROOM;
    }
    insert(w, p, v, f);
    0
}

// Any obstacle. `v` is the first vertex of a stop's node; of any other obstacle it says nothing.
pub fn add(w: &mut [u64; GROUP], f: Five, v: u64) -> u8
    requires sound_group { SoundGroup w.old }
    requires f_value { (is_form f ≡ true) × (v < 4294967296) }
    ensures { Added f v w.old (added_words w.old f v) result w.new }
{
    if f.kind == 1 {
        return group_lent_takes::add_growth(w, f);
    }
    if f.kind < 5 {
        return group_lent_takes::add_listed(w, f);
    }
    add_stop(w, f, v)
}
