#![tactic(auto)]
// The stops of another group added to a group's own, each under the vertex it was kept by, in one pass over both. Assumes nothing.
ghost use Rattle.std.specs.Prelude.{◌≡◌, true, ◌+◌, ◌-◌, ◌≤◌, take, drop};
ghost use Rattle.ledger_spec.specs.Groups.{rising_from, grouped, add_stops};
ghost use Rattle.groups.specs.View.{stops_of};
ghost use Rattle.group_adds.specs.Adds.{changed};
ghost use Rattle.group_merges.specs.Turns.{comes_in, turn_of, closed};

use group_adds::Changed;
use group_stops::Meeting;
use groups::{Group, Kind};
use kinds::{Entry, Obstacle, Stop, numbers};

type List = [Entry; Group::MOST];

type Stops = [Stop; Group::MOST];

// What a turn of the pass does: a stop is written, and so many of the own stops and of the others are done with; or an entry is listed for one of each; or there
// is no room.
#[derive(Clone, Copy)]
enum Turn {
    Put(Stop, usize, usize),
    Enter(Entry),
    Full,
}

// x comes in beside so many stops.
fn comes_in(x: Stop, stops: usize) -> Turn
    ensures { result ≡ comes_in x stops }
{
    if Group::MOST <= stops {
        return Turn::Full;
    }
    Turn::Put(x, 0, 1)
}

// x is the next of the others and y the own next; there are so many stops, and so many entries.
fn turn_of(x: Stop, y: Stop, stops: usize, listed: usize) -> Turn
    ensures { result ≡ turn_of x y stops listed }
{
    if y.vertex.0 < x.vertex.0 {
        return Turn::Put(y, 1, 0);
    }
    if x.vertex.0 < y.vertex.0 {
        return comes_in(x, stops);
    }
    match group_stops::meeting_of(x, y) {
        Meeting::Keep => Turn::Put(y, 1, 1),
        Meeting::Replace => Turn::Put(x, 1, 1),
        Meeting::Join(a, b) => {
            if Group::MOST <= listed {
                return Turn::Full;
            }
            Turn::Enter(Entry {
                obstacle: Obstacle::Conflicting(a, b),
            })
        }
    }
}

// No room: the very group.
fn refused(g: Group) -> Changed
    ensures { result ≡ record { number = 20; group = g } }
{
    Changed {
        number: numbers::ROOM,
        group: g,
    }
}

// The pass is over: what is left of g's own stops, from i on, follows the k that are written.
fn ended(g: Group, list: List, listed: usize, out: Stops, i: usize, k: usize) -> Changed
    requires { (g.stopped ≤ 128) × ((i ≤ g.stopped) × (k + (g.stopped - i) ≤ 128)) }
    ensures { result ≡ closed g.stopped g.stops list listed out i k }
{
    let n = g.stopped;
    let own = g.stops;
    let stops = group_runs::stops_laid(out, k, own, i, n);
    let group = Group {
        kind: Kind::Conflicts,
        list,
        stops,
        listed,
        stopped: k + (n - i),
    };
    Changed { number: 0, group }
}

// The first m of `other` are added to the stops of g and to the first `listed` of `list`, which past them is that of g. The pass writes `out` up to k.
pub fn merged(g: Group, list: List, listed: usize, other: Stops, m: usize) -> Changed
    requires stopped_bound { g.stopped ≤ 128 }
    requires listed_bound { (listed ≤ 128) × (drop listed list ≡ drop listed g.list) }
    requires m_bound { (m ≤ 128) × (rising_from 0 (take m other) ≡ true) }
    ensures { result ≡ changed (grouped (add_stops (take m other) (take listed list) (stops_of g))) g }
{
    let n = g.stopped;
    let own = g.stops;
    let mut entries = list;
    let mut at = listed;
    let mut out = own;
    let mut i: usize = 0;
    let mut j: usize = 0;
    let mut k: usize = 0;
    // Each turn ends with one of the other's stops, one of the own, or one of both: how many turns there are shows only on the way.
    while j < m {
        let x = other[j];
        let mut turn = comes_in(x, k);
        if i < n {
            let y = own[i];
            turn = turn_of(x, y, k + (n - i), at);
        }
        match turn {
            Turn::Put(z, a, b) => {
                out[k] = z;
                k += 1;
                i += a;
                j += b;
            }
            Turn::Enter(e) => {
                entries[at] = e;
                at += 1;
                i += 1;
                j += 1;
            }
            Turn::Full => return refused(g),
        }
    }
    ended(g, entries, at, out, i, k)
}
