#![tactic(auto)]
// The pending stops of a group as an array: where a vertex stands among them, a stop that comes in or goes, and what becomes of two stops at one
// vertex. Each says in its `requires` how many of the array count. Assumes nothing.
ghost use Rattle.std.specs.Prelude.{◌≡◌, ◌≤◌, ◌<◌, take};
ghost use Rattle.kinds.specs.Obstacles.{pair_of};
ghost use Rattle.groups.specs.View.{over};
ghost use Rattle.group_stops.specs.Places.{inserted_at, removed_at, spot_of, meeting_of};

use groups::Group;
use kinds::{Pair, Stop, Vertex};

// Where a vertex stands among the pending stops: a free place, or the stop that is pending there. (A search's Result would call one of two answers an error.)
#[derive(Clone, Copy)]
pub enum Spot {
    Free(usize),
    Held(usize, Stop),
}

// What becomes of two stops at one vertex.
#[derive(Clone, Copy)]
pub enum Meeting {
    Keep,
    Replace,
    Join(Pair, Pair),
}

#[tactic(auto, unfolding(crate::specs::Places::meeting_of))]
pub fn meeting_of(x: Stop, y: Stop) -> Meeting
    ensures { result ≡ meeting_of (pair_of x.obstacle) (pair_of y.obstacle) }
{
    match (x.obstacle.pair(), y.obstacle.pair()) {
        (None, _) => Meeting::Keep,
        (Some(_), None) => Meeting::Replace,
        (Some(a), Some(b)) => {
            if a.node == b.node {
                return Meeting::Keep;
            }
            Meeting::Join(a, b)
        }
    }
}

pub fn spot_of(stops: [Stop; Group::MOST], n: usize, v: Vertex) -> Spot
    requires { n ≤ 128 }
    ensures { result ≡ spot_of 0 v.0 (take n stops) }
{
    for (i, y) in stops[..n].iter().enumerate() {
        if v.0 < y.vertex.0 {
            return Spot::Free(i);
        }
        if v.0 == y.vertex.0 {
            return Spot::Held(i, *y);
        }
    }
    Spot::Free(n)
}

// x comes in at p, and those from p on move up.
pub fn put_in(stops: [Stop; Group::MOST], n: usize, p: usize, x: Stop) -> [Stop; Group::MOST]
    requires { (p ≤ n) × (n < 128) }
    ensures { result ≡ over (inserted_at p x (take n stops)) stops }
{
    let mut r = stops;
    r.copy_within(p..n, p + 1);
    r[p] = x;
    r
}

// The stop at p goes, and those after it move down.
pub fn taken_out(stops: [Stop; Group::MOST], n: usize, p: usize) -> [Stop; Group::MOST]
    requires { (p < n) × (n ≤ 128) }
    ensures { result ≡ over (removed_at p (take n stops)) stops }
{
    let mut r = stops;
    r.copy_within(p + 1..n, p);
    r
}
