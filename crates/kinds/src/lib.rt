#![tactic(auto)]
// The plain types that everything names: counters, handles, states, obstacles, notices, and their limits.
// All are plain data by value; each function is proved by a definition of specs/. Assumes nothing.
mod getters; // what an obstacle says
pub mod numbers; // the numbers a call can answer

ghost use Rattle.std.specs.Prelude.{◌≡◌};
ghost use Rattle.kinds.specs.Names.{same_code, no_code};
ghost use Rattle.kinds.specs.States.{against_of, blossom_of};
ghost use Rattle.kinds.specs.Obstacles.{listable, is_stop, pair_of, these_of, both_of, conflicting_of};

// Three counters that never stand in for one another.
#[derive(Clone, Copy, PartialEq, Eq)]
pub struct Serial(pub u32);

#[derive(Clone, Copy, PartialEq, Eq)]
pub struct NodeIndex(pub u32);

#[derive(Clone, Copy, PartialEq, Eq)]
pub struct Vertex(pub u32);

impl Serial {
    pub const LAST: u32 = 4294967295;

    // The next serial when the last one is given out.
    pub const PAST: u64 = 4294967296;
}

// A node by its interface, its slot there, and its serial. It names a node only as long as that slot holds that serial.
#[derive(Clone, Copy, PartialEq, Eq)]
pub struct Handle {
    pub unit: u8,
    pub slot: u8,
    pub serial: Serial,
}

impl Handle {
    pub const UNITS: u8 = 8;

    pub const SLOTS: u8 = 64;

    // The handle of a refusal: all fields 0.
    pub fn nobody() -> Handle
        ensures { result ≡ no_code }
    {
        Handle {
            unit: 0,
            slot: 0,
            serial: Serial(0),
        }
    }
}

// Whether a node's value rises, stays or falls as its tree grows: +1, 0, -1.
#[derive(Clone, Copy, PartialEq, Eq)]
pub enum GrowState {
    Grow,
    Stay,
    Shrink,
}

impl GrowState {
    // Whether two nodes that meet in these states conflict, as the Rust has it.
    pub fn is_against(self, other: GrowState) -> bool
        ensures { result ≡ against_of self other }
    {
        matches!(
            (self, other),
            (GrowState::Grow, GrowState::Grow | GrowState::Stay)
                | (GrowState::Stay, GrowState::Grow)
        )
    }
}

// What a slot holds. An empty slot, and one emptied by expansion, holds no node.
#[derive(Clone, Copy, PartialEq, Eq)]
pub enum Class {
    Absent,
    Blossom,
    Defect(Vertex),
}

impl Class {
    pub fn is_blossom(self) -> bool
        ensures { result ≡ blossom_of self }
    {
        matches!(self, Class::Blossom)
    }
}

// A node, and the node of it that touches.
#[derive(Clone, Copy, PartialEq, Eq)]
pub struct Pair {
    pub node: Handle,
    pub touching: Handle,
}

// What stands in the way of growing: the Rust's `MaxUpdateLength`, with its variants' names.
#[derive(Clone, Copy)]
pub enum Obstacle {
    // So much can be grown; whether some boundary node is empty.
    NonZeroGrow(i64, bool),
    Conflicting(Pair, Pair),
    // A virtual vertex, and whether it is a mirror.
    TouchingVirtual(Pair, Vertex, bool),
    BlossomNeedExpand(Handle),
    VertexShrinkStop(Handle, Option<Pair>),
}

// The first nodes of two pairs are a and b, in this order.
fn are_these(p: Pair, q: Pair, a: Handle, b: Handle) -> bool
    ensures { result ≡ these_of p q a b }
{
    p.node == a && q.node == b
}

fn are_both(p: Pair, q: Pair, a: Handle, b: Handle) -> bool
    ensures { result ≡ both_of p q a b }
{
    are_these(p, q, a, b) || are_these(p, q, b, a)
}

impl Obstacle {
    // The largest weight: no obstacle at all.
    pub const LARGEST: i64 = 9223372036854775807;

    // Whether a group's list may hold it: neither a growth nor a stop.
    pub fn is_listable(self) -> bool
        ensures { result ≡ listable self }
    {
        !matches!(
            self,
            Obstacle::NonZeroGrow(_, _) | Obstacle::VertexShrinkStop(_, _)
        )
    }

    pub fn is_stop(self) -> bool
        ensures { result ≡ is_stop self }
    {
        matches!(self, Obstacle::VertexShrinkStop(_, _))
    }

    // The pair of a stop that has one.
    pub fn pair(self) -> Option<Pair>
        ensures { result ≡ pair_of self }
    {
        match self {
            Obstacle::VertexShrinkStop(_, p) => p,
            _ => None,
        }
    }

    // Whether it is a conflict of these two nodes, in either order.
    pub fn is_conflicting(self, a: Handle, b: Handle) -> bool
        ensures { result ≡ conflicting_of self a b }
    {
        match self {
            Obstacle::Conflicting(p, q) => are_both(p, q, a, b),
            _ => false,
        }
    }
}

// An element of a group's list. (An array of enums is no field that the checker walks; an array of these is.)
#[derive(Clone, Copy)]
pub struct Entry {
    pub obstacle: Obstacle,
}

// A pending stop of a group, with the vertex that it is kept by.
#[derive(Clone, Copy)]
pub struct Stop {
    pub vertex: Vertex,
    pub obstacle: Obstacle,
}

// What a call tells the dual module, with its trait call's arguments. The circle of "shrink prepared" stands beside the list of notices.
#[derive(Clone, Copy)]
pub enum Notice {
    DefectAdded(Handle),
    StateSet(Handle, GrowState),
    ShrinkPrepared,
    BlossomAdded(Handle),
    BlossomRemoved(Handle),
    Grown(i64),
}

impl Notice {
    // One state set for each of 64 members, shrink prepared, blossom added.
    pub const MOST: usize = 66;
}
