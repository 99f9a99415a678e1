// Whether a node that an obstacle or a group names is gone from the bench, and the first vertex of a stop's node. Everything here only reads; a group's
// arrays are passed once, not for each entry. Assumes nothing.
ghost use Rattle.std.specs.Prelude.{◌≡◌, true, [], ◌∷◌, ◌≤◌, take};
ghost use Rattle.ledger_spec.specs.Tests.{any};
ghost use Rattle.ledger_spec.specs.Groups.{sound_group};
ghost use Rattle.ledger_spec.specs.GroupCalls.{stale_code, handles_of, list_handles, stop_handles, group_handles, vertex_of};
ghost use Rattle.bench_views.specs.Canon.{Canon};
ghost use Rattle.bench_views.specs.Fit.{Fit};
ghost use Rattle.bench_views.specs.View.{view};
ghost use Rattle.groups.specs.View.{group_of};

use bench_words::WORDS;
use group_handles::Nodes;
use groups::{Group, Kind};
use kinds::{Entry, Handle, Obstacle, Stop, Vertex};

fn is_gone(b: &[u64; WORDS], h: Handle) -> bool
    requires { Canon b.now }
    ensures { result ≡ stale_code (view b.now) h }
{
    bench_links::find(b, h).is_none()
}

fn either_gone(b: &[u64; WORDS], x: Handle, y: Handle) -> bool
    requires { Canon b.now }
    ensures { result ≡ any (stale_code (view b.now)) (x ∷ y ∷ []) }
{
    is_gone(b, x) || is_gone(b, y)
}

pub fn names_gone(b: &[u64; WORDS], o: Obstacle) -> bool
    requires { Canon b.now }
    ensures { result ≡ any (stale_code (view b.now)) (handles_of o) }
{
    match group_handles::nodes_of(o) {
        Nodes::None => false,
        Nodes::One(x) => is_gone(b, x),
        Nodes::Two(x, y) => either_gone(b, x, y),
        Nodes::Three(x, y, z) => is_gone(b, x) || either_gone(b, y, z),
        Nodes::Four(x, y, z, w) => either_gone(b, x, y) || either_gone(b, z, w),
    }
}

fn list_gone(b: &[u64; WORDS], list: [Entry; Group::MOST], n: usize) -> bool
    requires canon { Canon b.now }
    requires n_bound { n ≤ 128 }
    ensures { result ≡ any (stale_code (view b.now)) (list_handles (take n list)) }
{
    list[..n].iter().any(|e| names_gone(b, e.obstacle))
}

fn stops_gone(b: &[u64; WORDS], stops: [Stop; Group::MOST], n: usize) -> bool
    requires canon { Canon b.now }
    requires n_bound { n ≤ 128 }
    ensures { result ≡ any (stale_code (view b.now)) (stop_handles (take n stops)) }
{
    stops[..n].iter().any(|s| names_gone(b, s.obstacle))
}

pub fn group_gone(b: &[u64; WORDS], g: Group) -> bool
    requires canon { Canon b.now }
    requires g_value { sound_group (group_of g) ≡ true }
    ensures { result ≡ any (stale_code (view b.now)) (group_handles (group_of g)) }
{
    match g.kind {
        Kind::Growth(_, _) => false,
        Kind::Conflicts => list_gone(b, g.list, g.listed) || stops_gone(b, g.stops, g.stopped),
    }
}

// Of any other obstacle than a stop it says 0.
pub fn vertex_of(b: &[u64; WORDS], o: Obstacle) -> Vertex
    requires { Fit b.now }
    ensures { result.0 ≡ vertex_of (view b.now) o }
{
    match o {
        Obstacle::VertexShrinkStop(n, _) => read_sound::get_representative_vertex(b, n).vertex,
        _ => Vertex(0),
    }
}
