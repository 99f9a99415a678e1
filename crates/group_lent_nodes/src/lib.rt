#![tactic(auto)]
// Whether a node that an obstacle or a group in words names is gone from the bench, and the first vertex of a stop's node. Everything here only reads, and
// no obstacle is decoded. Assumes nothing.
ghost use Rattle.std.specs.Prelude.{◌≡◌, true, [], ◌∷◌, ◌<◌};
ghost use Rattle.ledger_spec.specs.Tests.{any};
ghost use Rattle.ledger_spec.specs.GroupCalls.{stale_code, handles_of, list_handles, stop_handles, group_handles, vertex_of};
ghost use Rattle.bench_views.specs.Canon.{Canon};
ghost use Rattle.bench_views.specs.Fit.{Fit};
ghost use Rattle.bench_views.specs.View.{view};
ghost use Rattle.bench_words.specs.Codec.{hand_of};
ghost use Rattle.group_lent.specs.Forms.{is_form, obstacle_of};
ghost use Rattle.group_lent.specs.Place.{list_in, stops_in, group_in, Listing, SoundGroup};

use bench_words::WORDS;
use group_lent::{Five, GROUP};
use kinds::Handle;

fn is_gone(b: &[u64; WORDS], w: u64) -> bool
    requires { Canon b.now }
    ensures { result ≡ stale_code (view b.now) (hand_of w) }
{
    bench_links::find_word(b, w).is_none()
}

fn two_gone(b: &[u64; WORDS], x: u64, y: u64) -> bool
    requires { Canon b.now }
    ensures { result ≡ any (stale_code (view b.now)) (hand_of x ∷ hand_of y ∷ []) }
{
    is_gone(b, x) || is_gone(b, y)
}

pub fn names_gone(b: &[u64; WORDS], f: Five) -> bool
    requires canon { Canon b.now }
    requires f_value { is_form f ≡ true }
    ensures { result ≡ any (stale_code (view b.now)) (handles_of (obstacle_of f)) }
{
    if f.kind == 1 {
        return false;
    }
    if f.kind == 2 {
        return two_gone(b, f.a, f.b) || two_gone(b, f.c, f.d);
    }
    if f.kind == 3 {
        return two_gone(b, f.a, f.b);
    }
    if f.kind == 6 {
        return is_gone(b, f.a) || two_gone(b, f.b, f.c);
    }
    is_gone(b, f.a)
}

fn list_gone(b: &[u64; WORDS], w: &[u64; GROUP]) -> bool
    requires canon { Canon b.now }
    requires listing { Listing w.now }
    ensures { result ≡ any (stale_code (view b.now)) (list_handles (list_in w.now)) }
{
    let n = w[3] as usize;
    (0..n).any(|i: usize| names_gone(b, group_lent::five_at(w, 5 + i * 5)))
}

fn stops_gone(b: &[u64; WORDS], w: &[u64; GROUP]) -> bool
    requires canon { Canon b.now }
    requires listing { Listing w.now }
    ensures { result ≡ any (stale_code (view b.now)) (stop_handles (stops_in w.now)) }
{
    let n = w[4] as usize;
    (0..n).any(|i: usize| names_gone(b, group_lent::five_at(w, 645 + i * 6 + 1)))
}

pub fn group_gone(b: &[u64; WORDS], w: &[u64; GROUP]) -> bool
    requires canon { Canon b.now }
    requires sound_group { SoundGroup w.now }
    ensures { result ≡ any (stale_code (view b.now)) (group_handles (group_in w.now)) }
{
    if w[0] == 1 {
        return false;
    }
    list_gone(b, w) || stops_gone(b, w)
}

// Of any other obstacle than a stop it says 0.
pub fn vertex_of(b: &[u64; WORDS], f: Five) -> u64
    requires fit { Fit b.now }
    requires f_value { is_form f ≡ true }
    ensures { (result ≡ vertex_of (view b.now) (obstacle_of f)) × (result < 4294967296) }
{
    if f.kind < 5 {
        return 0;
    }
    let r = read_sound::get_representative_vertex(b, bench_words::hand_of(f.a));
    r.vertex.0 as u64
}
