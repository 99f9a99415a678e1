// B: unit, count, and for each member its serial and its pair. Assumes nothing.
ghost use Rattle.std.specs.Prelude.{◌&&◌, ◌≡◌, ◌+◌, ◌*◌, ◌≤◌, ◌<◌, eqb, length, drop};
ghost use Rattle.record_measures.specs.Measures.{tried, tried_members, member_at, members_at, member_weight};

use crate::Measured;
use text_lines::Line;

// A member's bytes in the line, its space counted, and whether its pair is the member: 0 bytes, if one of the three is no serial.
#[derive(Clone, Copy)]
pub struct Weight {
    pub line: usize,
    pub own: bool,
}

fn weigh_member(t: &[u8], q: usize) -> Weight
    requires { q + 12 ≤ length t.now }
    ensures { (result ≡ member_weight (member_at t.now q)) × (result.line ≤ 21) }
{
    let serial = record_numbers::four_at(t, q);
    let first = record_numbers::four_at(t, q + 4);
    let second = record_numbers::four_at(t, q + 8);
    if serial == 0 || first == 0 || second == 0 {
        return Weight { line: 0, own: true };
    }
    Weight {
        line: 1 + crate::digits::digits(serial),
        own: first == serial && second == serial,
    }
}

// The members after the count. No sum passes the first, so a line is counted to its end, however long it is.
fn members(t: &[u8], unit: u64, q: usize, count: usize) -> Measured
    requires { (q + 12 * count ≤ length t.now) × ((unit < 256) × (count < 65536)) }
    ensures { result ≡ tried_members unit (members_at count t.now q) }
{
    if count == 0 {
        return crate::nothing();
    }
    let mut line: usize = 0;
    let mut own = true;
    for i in 0..count {
        let m = weigh_member(t, q + 12 * i);
        if m.line == 0 {
            return crate::nothing();
        }
        own = own && m.own;
        line += m.line;
    }
    let u = crate::digits::digits(unit);
    let bytes = 2 + u + line;
    if Line::MOST < bytes {
        return crate::nothing();
    }
    Measured {
        size: 4 + 12 * count,
        line: bytes + 1,
        own,
    }
}

pub fn blossom(t: &[u8], unit: u64, q: usize) -> Measured
    requires { (q ≤ length t.now) × (unit < 256) }
    ensures { result ≡ tried 66 unit (drop q t.now) }
{
    if t.len() - q < 2 {
        return crate::nothing();
    }
    let n = record_numbers::two_at(t, q);
    let count = n as usize;
    if t.len() - q - 2 < 12 * count {
        return crate::nothing();
    }
    members(t, unit, q + 2, count)
}
