#![tactic(auto)]
// An obstacle is added to a sound group, as docs/MANUAL.md, Obstacle groups, has it, once its handles are known to name nodes and a stop's first vertex is found: the
// trusted part of the public add. ROOM (20) hands back the very group. Assumes nothing.
ghost use Rattle.std.specs.Prelude.{◌≡◌, true, ◌||◌, [], ◌∷◌, ◌++◌, ◌≤◌, ◌<◌, take};
ghost use Rattle.kinds.specs.Obstacles.{pair_of};
ghost use Rattle.ledger_spec.specs.Groups.{growth, conflicts, sound_group, smaller, grouped, room_for, meet, add_stop, add_to_growth, add_to_conflicts, added};
ghost use Rattle.groups.specs.View.{list_of, stops_of, group_of, laid};
ghost use Rattle.group_stops.specs.Places.{after_at, removed_at};
ghost use Rattle.group_adds.specs.Adds.{changed};

use group_stops::{Meeting, Spot};
use groups::{Group, Kind};
use kinds::{Entry, Obstacle, Stop, Vertex, numbers};

// A number, and the group after the call.
#[derive(Clone, Copy)]
pub struct Changed {
    pub number: u8,
    pub group: Group,
}

fn add_listed(g: Group, e: Entry) -> Changed
    requires { (g.kind ≡ Kind.Conflicts) × ((g.listed ≤ 128) × (g.stopped ≤ 128)) }
    ensures { result ≡ changed (grouped (room_for (list_of g ++ e ∷ []) (stops_of g))) g }
{
    let at = g.listed;
    if Group::MOST <= at {
        return Changed {
            number: numbers::ROOM,
            group: g,
        };
    }
    let mut r = g;
    r.list[at] = e;
    r.listed = at + 1;
    Changed {
        number: 0,
        group: r,
    }
}

// The stop that is pending at p goes, and e is listed.
fn moved(g: Group, p: usize, e: Entry) -> Changed
    requires kind_value { (g.kind ≡ Kind.Conflicts) × ((g.listed ≤ 128) × (g.stopped ≤ 128)) }
    requires p_lt_stopped { p < g.stopped }
    ensures { result ≡ changed (grouped (room_for (list_of g ++ e ∷ []) (removed_at p (stops_of g)))) g }
{
    let n = g.listed;
    if Group::MOST <= n {
        return Changed {
            number: numbers::ROOM,
            group: g,
        };
    }
    let mut list = g.list;
    list[n] = e;
    let stops = group_stops::taken_out(g.stops, g.stopped, p);
    let group = Group {
        kind: Kind::Conflicts,
        list,
        stops,
        listed: n + 1,
        stopped: g.stopped - 1,
    };
    Changed { number: 0, group }
}

// x comes to the vertex of the stop y, which is pending at p.
fn met(g: Group, p: usize, x: Stop, y: Stop) -> Changed
    requires kind_value { (g.kind ≡ Kind.Conflicts) × ((g.listed ≤ 128) × (g.stopped ≤ 128)) }
    requires p_lt_stopped { (p < g.stopped) × (stops_of g ≡ take p (stops_of g) ++ y ∷ after_at p (stops_of g)) }
    ensures { result ≡ changed (grouped (meet (pair_of x.obstacle) (pair_of y.obstacle) x y (list_of g) (take p (stops_of g)) (after_at p (stops_of g)))) g }
{
    match group_stops::meeting_of(x, y) {
        Meeting::Keep => Changed {
            number: 0,
            group: g,
        },
        Meeting::Replace => {
            let mut r = g;
            r.stops[p] = x;
            Changed {
                number: 0,
                group: r,
            }
        }
        Meeting::Join(a, b) => {
            let e = Entry {
                obstacle: Obstacle::Conflicting(a, b),
            };
            moved(g, p, e)
        }
    }
}

fn add_stop(g: Group, x: Stop) -> Changed
    requires { (g.kind ≡ Kind.Conflicts) × ((g.listed ≤ 128) × (g.stopped ≤ 128)) }
    ensures { result ≡ changed (grouped (add_stop x (list_of g) (stops_of g))) g }
{
    let count = g.stopped;
    match group_stops::spot_of(g.stops, count, x.vertex) {
        Spot::Held(p, y) => met(g, p, x, y),
        Spot::Free(p) => {
            if Group::MOST <= count {
                return Changed {
                    number: numbers::ROOM,
                    group: g,
                };
            }
            let stops = group_stops::put_in(g.stops, count, p, x);
            let group = Group {
                kind: Kind::Conflicts,
                stops,
                stopped: count + 1,
                ..g
            };
            Changed { number: 0, group }
        }
    }
}

// The conflicts that hold just the one entry, or just the one stop.
fn one_listed(g: Group, e: Entry) -> Group
    ensures { result ≡ laid (conflicts (e ∷ []) []) g }
{
    let mut list = g.list;
    list[0] = e;
    Group {
        kind: Kind::Conflicts,
        list,
        listed: 1,
        stopped: 0,
        ..g
    }
}

fn one_stop(g: Group, s: Stop) -> Group
    ensures { result ≡ laid (conflicts [] (s ∷ [])) g }
{
    let mut stops = g.stops;
    stops[0] = s;
    Group {
        kind: Kind::Conflicts,
        stops,
        listed: 0,
        stopped: 1,
        ..g
    }
}

pub fn grown(g: Group, length: i64, flag: bool) -> Group
    ensures { result ≡ laid (growth length flag) g }
{
    Group {
        kind: Kind::Growth(length, flag),
        ..g
    }
}

fn smaller_of(a: i64, b: i64) -> i64
    ensures { result ≡ smaller a b }
{
    if b < a {
        return b;
    }
    a
}

fn either(a: bool, b: bool) -> bool
    ensures { result ≡ (a || b) }
{
    a || b
}

fn add_to_growth(g: Group, length: i64, flag: bool, o: Obstacle, first: Vertex) -> Changed
    ensures { result ≡ changed (add_to_growth length flag o first.0) g }
{
    match o {
        Obstacle::NonZeroGrow(other, on) => {
            let least = smaller_of(length, other);
            let joined = either(flag, on);
            let group = grown(g, least, joined);
            Changed { number: 0, group }
        }
        Obstacle::VertexShrinkStop(_, _) => {
            let s = Stop {
                vertex: first,
                obstacle: o,
            };
            let group = one_stop(g, s);
            Changed { number: 0, group }
        }
        Obstacle::Conflicting(_, _) => {
            let group = one_listed(g, Entry { obstacle: o });
            Changed { number: 0, group }
        }
        Obstacle::TouchingVirtual(_, _, _) => {
            let group = one_listed(g, Entry { obstacle: o });
            Changed { number: 0, group }
        }
        Obstacle::BlossomNeedExpand(_) => {
            let group = one_listed(g, Entry { obstacle: o });
            Changed { number: 0, group }
        }
    }
}

fn add_to_conflicts(g: Group, o: Obstacle, first: Vertex) -> Changed
    requires { (g.kind ≡ Kind.Conflicts) × ((g.listed ≤ 128) × (g.stopped ≤ 128)) }
    ensures { result ≡ changed (add_to_conflicts (list_of g) (stops_of g) o first.0) g }
{
    match o {
        Obstacle::NonZeroGrow(_, _) => Changed {
            number: 0,
            group: g,
        },
        Obstacle::VertexShrinkStop(_, _) => {
            let s = Stop {
                vertex: first,
                obstacle: o,
            };
            add_stop(g, s)
        }
        Obstacle::Conflicting(_, _) => add_listed(g, Entry { obstacle: o }),
        Obstacle::TouchingVirtual(_, _, _) => add_listed(g, Entry { obstacle: o }),
        Obstacle::BlossomNeedExpand(_) => add_listed(g, Entry { obstacle: o }),
    }
}

// `first` is the first vertex of a stop's node. Of any other obstacle it says nothing.
pub fn add(g: Group, o: Obstacle, first: Vertex) -> Changed
    requires { sound_group (group_of g) ≡ true }
    ensures { result ≡ changed (added (group_of g) o first.0) g }
{
    match g.kind {
        Kind::Growth(length, flag) => add_to_growth(g, length, flag, o, first),
        Kind::Conflicts => add_to_conflicts(g, o, first),
    }
}
