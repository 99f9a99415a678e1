#![tactic(auto)]
// Whether a group has room for another's entries and stops: both are only read, and the counts of each step are reckoned. Assumes nothing.
ghost use Rattle.std.specs.Prelude.{◌≡◌, ◌≤◌};
ghost use Rattle.ledger_spec.specs.Tests.{is_some};
ghost use Rattle.ledger_spec.specs.Groups.{extended};
ghost use Rattle.group_lent.specs.Place.{Listing, group_in};
ghost use Rattle.group_lent_room.specs.Coming.{listed_by, stopped_by, coming_in};

use group_lent::{Five, GROUP};

// 0: the counts stay; 1: a stop more; 2: it becomes an entry with the stop at its vertex.
fn coming(w: &[u64; GROUP], f: Five, v: u64) -> u8
    requires { Listing w.now }
    ensures { result ≡ coming_in w.now f v }
{
    let p = group_lent_stops::place_of(w, v);
    if !group_lent_stops::is_held(w, p, v) {
        return 1;
    }
    if f.kind == 5 {
        return 0;
    }
    let at = 645 + p * 6;
    if w[at + 1] == 5 {
        return 0;
    }
    if group_lent::same_node(f.b, w[at + 3]) {
        return 0;
    }
    2
}

fn listed_by(d: u8, n: u64) -> u64
    requires { n ≤ 128 }
    ensures { result ≡ listed_by d n }
{
    if d == 2 {
        return n + 1;
    }
    n
}

fn stopped_by(d: u8, n: u64) -> u64
    requires { n ≤ 128 }
    ensures { result ≡ stopped_by d n }
{
    if d == 1 {
        return n + 1;
    }
    if d == 2 {
        if n == 0 {
            return 0;
        }
        return n - 1;
    }
    n
}

// Of conflicts extended by conflicts: the other's list is appended, then its stops come one by one.
pub fn has_room(w: &[u64; GROUP], other: &[u64; GROUP]) -> bool
    requires listing { Listing w.now }
    requires listing_2 { Listing other.now }
    ensures { result ≡ is_some (extended (group_in w.now) (group_in other.now)) }
{
    let m = other[4] as usize;
    let mut l = w[3] + other[3];
    let mut s = w[4];
    if 128 < l {
        return false;
    }
    for j in 0..m {
        let v = other[645 + j * 6];
        let f = group_lent::five_at(other, 645 + j * 6 + 1);
        let d = coming(w, f, v);
        l = listed_by(d, l);
        s = stopped_by(d, s);
        if 128 < l {
            return false;
        }
        if 128 < s {
            return false;
        }
    }
    true
}
