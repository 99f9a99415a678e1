#![tactic(auto)]
// Pop and peek of an obstacle group: the last of the list, else the stop of smallest vertex, else nothing. Pop also takes both out.
// Both are total: BROKEN (2) of an unsound group, KIND (10) of a growth, and a refused pop hands back the very group. Assumes nothing.
ghost use Rattle.std.specs.Prelude.{◌≡◌, ◌-◌, ◌<◌};
ghost use Rattle.ledger_spec.specs.GroupCalls.{peek, pop};
ghost use Rattle.groups.specs.View.{group_of};
ghost use Rattle.group_takes.specs.Takes.{top_by, shifted, shown_peeked, shown_popped, after};

use groups::{Group, Kind};
use kinds::{Entry, Obstacle, Stop, numbers};

// A number, and what stands on top.
#[derive(Clone, Copy)]
pub struct Peeked {
    pub number: u8,
    pub obstacle: Option<Obstacle>,
}

// A number, what was taken, and the group that is left.
#[derive(Clone, Copy)]
pub struct Popped {
    pub number: u8,
    pub obstacle: Option<Obstacle>,
    pub group: Group,
}

// One fewer, where there is one.
fn less(n: usize) -> usize
    ensures { result ≡ n - 1 }
{
    if n == 0 {
        return 0;
    }
    n - 1
}

// Of n entries with e the last and m stops with s the first: the one on top.
fn top_of(n: usize, e: Entry, m: usize, s: Stop) -> Option<Obstacle>
    ensures { result ≡ top_by n e m s }
{
    if 0 < n {
        return Some(e.obstacle);
    }
    if 0 < m {
        return Some(s.obstacle);
    }
    None
}

// The first stop goes, and the next n move down.
fn moved_down(stops: [Stop; Group::MOST], n: usize) -> [Stop; Group::MOST]
    requires { n < 128 }
    ensures { result ≡ shifted n stops }
{
    let mut r = stops;
    r.copy_within(1..n + 1, 0);
    r
}

pub fn peek(g: Group) -> Peeked
    ensures { shown_peeked result ≡ peek (group_of g) }
{
    if !groups::group_is_sound(g) {
        return Peeked {
            number: numbers::BROKEN,
            obstacle: None,
        };
    }
    let kind = g.kind;
    match kind {
        Kind::Growth(_, _) => Peeked {
            number: numbers::KIND,
            obstacle: None,
        },
        Kind::Conflicts => {
            let n = less(g.listed);
            let e = g.list[n];
            let s = g.stops[0];
            let obstacle = top_of(g.listed, e, g.stopped, s);
            Peeked {
                number: 0,
                obstacle,
            }
        }
    }
}

pub fn pop(g: Group) -> Popped
    ensures says { shown_popped result ≡ pop (group_of g) }
    ensures leaves { result.group ≡ after (pop (group_of g)).0 (pop (group_of g)).1.1 g }
{
    if !groups::group_is_sound(g) {
        return Popped {
            number: numbers::BROKEN,
            obstacle: None,
            group: g,
        };
    }
    let kind = g.kind;
    match kind {
        Kind::Growth(_, _) => Popped {
            number: numbers::KIND,
            obstacle: None,
            group: g,
        },
        Kind::Conflicts => {
            let list = g.list;
            let stops = g.stops;
            let n = less(g.listed);
            let m = less(g.stopped);
            let e = list[n];
            let s = stops[0];
            let obstacle = top_of(g.listed, e, g.stopped, s);
            Popped {
                number: 0,
                obstacle,
                group: Group {
                    kind: Kind::Conflicts,
                    list,
                    stops: moved_down(stops, m),
                    listed: n,
                    stopped: m,
                },
            }
        }
    }
}
