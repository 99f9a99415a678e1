#![tactic(auto)]
// One position of a recording: what a step is refused for there before the bench is asked, how far it goes; and how many groups a recording has. Only a
// growth's three words are read; conflicts are tested whole, and end the call. Assumes nothing.
ghost use Rattle.std.specs.Prelude.{◌≡◌, ◌<◌, length, pos};
ghost use Rattle.ledger_spec.specs.Tests.{first};
ghost use Rattle.recorded_spec.specs.Recorded.{group_tests, step_by};
ghost use Rattle.recorded_groups.specs.Recording.{growth_played, played, recording_of};

use group_lent::GROUP;
use kinds::numbers;

// The largest weight: a growth that allows anything says nothing.
const LARGEST: u64 = 9223372036854775807;

// A growth, by its words for length and flag.
fn growth_number(length: u64, flag: u64) -> u8
    ensures { result ≡ first (group_tests (growth_played length flag)) }
{
    if 1 < flag {
        return numbers::BROKEN;
    }
    if length == LARGEST {
        return numbers::NOTHING;
    }
    if length == 0 {
        return numbers::STUCK;
    }
    if LARGEST < length {
        return numbers::STUCK;
    }
    0
}

pub fn group_number(w: &[u64]) -> u8
    ensures { result ≡ first (group_tests (played w.now)) }
{
    if w.len() != GROUP {
        return numbers::BROKEN;
    }
    if w[0] == 1 {
        return growth_number(w[1], w[2]);
    }
    if group_lent_sound::is_sound(w) {
        return numbers::STUCK;
    }
    numbers::BROKEN
}

// The smaller of a group's growth and what is left.
pub fn step_by(w: &[u64], left: u64) -> u64
    requires { (first (group_tests (played w.now)) ≡ 0) × (0 < left) }
    ensures { step_by (pos left) (played w.now) ≡ pos result }
{
    let most = w[1];
    if most < left {
        return most;
    }
    left
}

// How many groups, one that is cut short among them.
pub fn count(ws: &[u64]) -> usize
    ensures { result ≡ length (recording_of ws.now) }
{
    let whole = ws.len() / GROUP;
    if whole * GROUP == ws.len() {
        return whole;
    }
    whole + 1
}
