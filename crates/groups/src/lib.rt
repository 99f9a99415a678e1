#![tactic(auto)]
// Obstacle groups by value: the type, the empty group, the test of a sound group, and what a group can be asked without taking anything out.
// Every public function is total: a group that breaks a rule is answered by BROKEN (2). Assumes nothing.
ghost use Rattle.std.specs.Prelude.{◌≡◌, false, ◌≤◌, take};
ghost use Rattle.ledger_spec.specs.Groups.{all_listable, rising_from, sound_group};
ghost use Rattle.ledger_spec.specs.GroupCalls.{is_empty, is_active, growth_of};
ghost use Rattle.groups.specs.View.{group_of};
ghost use Rattle.groups.specs.Shown.{empty_of, shown_told, shown_asked};

use kinds::{Entry, Handle, Obstacle, Stop, Vertex, numbers};

// (No Option of the growth: `None` for a group with conflicts would say nothing.)
#[derive(Clone, Copy)]
pub enum Kind {
    Growth(i64, bool),
    Conflicts,
}

// Of a growth the two arrays and counts say nothing. Of conflicts the first `listed` and the first `stopped` elements count.
#[derive(Clone, Copy)]
pub struct Group {
    pub kind: Kind,
    pub list: [Entry; Group::MOST],
    pub stops: [Stop; Group::MOST],
    pub listed: usize,
    pub stopped: usize,
}

impl Group {
    pub const MOST: usize = 128;
}

// A number, and yes or no.
#[derive(Clone, Copy)]
pub struct Told {
    pub number: u8,
    pub yes: bool,
}

// A number, and the length of a growth.
#[derive(Clone, Copy)]
pub struct Asked {
    pub number: u8,
    pub length: Option<i64>,
}

// (largest weight, no)
pub fn empty_group() -> Group
    ensures { result ≡ empty_of }
{
    let h = Handle::nobody();
    let e = Entry {
        obstacle: Obstacle::BlossomNeedExpand(h),
    };
    let s = Stop {
        vertex: Vertex(0),
        obstacle: Obstacle::VertexShrinkStop(h, None),
    };
    let list = [e; Group::MOST];
    let stops = [s; Group::MOST];
    Group {
        kind: Kind::Growth(Obstacle::LARGEST, false),
        list,
        stops,
        listed: 0,
        stopped: 0,
    }
}

fn are_listable(list: [Entry; Group::MOST], n: usize) -> bool
    requires { n ≤ 128 }
    ensures { result ≡ all_listable (take n list) }
{
    list[..n].iter().all(|e| e.obstacle.is_listable())
}

// Only stops, by strictly rising vertex.
fn are_rising(stops: [Stop; Group::MOST], n: usize) -> bool
    requires { n ≤ 128 }
    ensures { result ≡ rising_from 0 (take n stops) }
{
    let mut least: u64 = 0;
    for s in &stops[..n] {
        if !s.obstacle.is_stop() {
            return false;
        }
        let v = s.vertex.0 as u64;
        if v < least {
            return false;
        }
        least = v + 1;
    }
    true
}

pub fn group_is_sound(g: Group) -> bool
    ensures { result ≡ sound_group (group_of g) }
{
    let kind = g.kind;
    match kind {
        Kind::Growth(_, _) => true,
        Kind::Conflicts => {
            if Group::MOST < g.listed {
                return false;
            }
            if Group::MOST < g.stopped {
                return false;
            }
            let list = g.list;
            if !are_listable(list, g.listed) {
                return false;
            }
            let stops = g.stops;
            are_rising(stops, g.stopped)
        }
    }
}

// Refused, or accepted, and no.
fn no(number: u8) -> Told
    ensures { result ≡ record { number = number; yes = false } }
{
    Told { number, yes: false }
}

// A growth of largest weight, either flag.
pub fn is_empty(g: Group) -> Told
    ensures { shown_told result ≡ is_empty (group_of g) }
{
    if !group_is_sound(g) {
        return no(numbers::BROKEN);
    }
    let kind = g.kind;
    match kind {
        Kind::Growth(length, _) => Told {
            number: 0,
            yes: length == Obstacle::LARGEST,
        },
        Kind::Conflicts => no(0),
    }
}

// All but (largest, no).
pub fn is_active(g: Group) -> Told
    ensures { shown_told result ≡ is_active (group_of g) }
{
    if !group_is_sound(g) {
        return no(numbers::BROKEN);
    }
    let kind = g.kind;
    match kind {
        Kind::Growth(length, flag) => {
            if length == Obstacle::LARGEST {
                Told {
                    number: 0,
                    yes: flag,
                }
            } else {
                Told {
                    number: 0,
                    yes: true,
                }
            }
        }
        Kind::Conflicts => Told {
            number: 0,
            yes: true,
        },
    }
}

// The length of a growth, refused by NOTHING (21) where it is the largest; none of conflicts.
pub fn get_none_zero_growth(g: Group) -> Asked
    ensures { shown_asked result ≡ growth_of (group_of g) }
{
    if !group_is_sound(g) {
        return Asked {
            number: numbers::BROKEN,
            length: None,
        };
    }
    let kind = g.kind;
    match kind {
        Kind::Growth(length, _) => {
            if length == Obstacle::LARGEST {
                return Asked {
                    number: numbers::NOTHING,
                    length: None,
                };
            }
            Asked {
                number: 0,
                length: Some(length),
            }
        }
        Kind::Conflicts => Asked {
            number: 0,
            length: None,
        },
    }
}
