#![tactic(auto)]
// One sound group extended by another, as docs/MANUAL.md, Obstacle groups, has it, once the other's handles are known to name nodes: the trusted part of the public extend.
// ROOM (20) hands back the very group. Assumes nothing.
ghost use Rattle.std.specs.Prelude.{◌≡◌, true, ◌&&◌, ◌≤◌};
ghost use Rattle.ledger_spec.specs.Groups.{growth, sound_group, rising_from, grouped, room_for, and_then, add_stops, extended};
ghost use Rattle.groups.specs.View.{stops_of, group_of};
ghost use Rattle.group_adds.specs.Adds.{changed};
ghost use Rattle.group_extends.specs.Extends.{append_list, least_of, whole_of};

use group_adds::Changed;
use groups::{Group, Kind};
use kinds::{Obstacle, numbers};

// The length and the flag of a growth.
#[derive(Clone, Copy)]
pub struct Least {
    pub length: i64,
    pub flag: bool,
}

fn both(a: bool, b: bool) -> bool
    ensures { result ≡ (a && b) }
{
    a && b
}

// A growth (a, f) extended by (b, h): a largest weight has no effect; else the smaller pair, length first, then no before yes.
fn smaller_pair(a: i64, f: bool, b: i64, h: bool) -> Least
    ensures { growth result.length result.flag ≡ least_of a f b h }
{
    if b == Obstacle::LARGEST {
        return Least { length: a, flag: f };
    }
    if b < a {
        return Least { length: b, flag: h };
    }
    if a < b {
        return Least { length: a, flag: f };
    }
    let flag = both(f, h);
    Least { length: a, flag }
}

fn extend_conflicts(g: Group, h: Group) -> Changed
    requires listed_bound { (g.listed ≤ 128) × (g.stopped ≤ 128) }
    requires listed_bound_2 { (h.listed ≤ 128) × ((h.stopped ≤ 128) × (rising_from 0 (stops_of h) ≡ true)) }
    ensures { result ≡ changed (grouped (and_then (room_for (append_list g h) (stops_of g)) (add_stops (stops_of h)))) g }
{
    let free = Group::MOST - g.listed;
    if free < h.listed {
        return Changed {
            number: numbers::ROOM,
            group: g,
        };
    }
    let list = group_runs::entries_laid(g.list, g.listed, h.list, 0, h.listed);
    group_merges::merged(g, list, g.listed + h.listed, h.stops, h.stopped)
}

pub fn extend(g: Group, h: Group) -> Changed
    requires g_value { sound_group (group_of g) ≡ true }
    requires h_value { sound_group (group_of h) ≡ true }
    ensures { result ≡ changed (extended (group_of g) (group_of h)) (whole_of g h) }
{
    let kind = g.kind;
    let other = h.kind;
    match kind {
        Kind::Growth(a, f) => match other {
            Kind::Growth(b, i) => {
                let least = smaller_pair(a, f, b, i);
                let group = group_adds::grown(g, least.length, least.flag);
                Changed { number: 0, group }
            }
            Kind::Conflicts => Changed {
                number: 0,
                group: h,
            },
        },
        Kind::Conflicts => match other {
            Kind::Growth(_, _) => Changed {
                number: 0,
                group: g,
            },
            Kind::Conflicts => extend_conflicts(g, h),
        },
    }
}
