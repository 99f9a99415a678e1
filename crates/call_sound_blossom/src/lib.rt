#![tactic(auto)]
// The trusted add blossom, on words that hold a sound bench: the first refusal of the manual's table (docs/MANUAL.md, Refusals) that applies, or the work. Members and touching
// handles are lists of any length, of words of any kind. Assumes nothing.
ghost use Rattle.std.specs.Prelude.{◌≡◌};
ghost use Rattle.ledger_spec.specs.Tests.{first};
ghost use Rattle.ledger_spec.specs.Refuse.{blossom_tests};
ghost use Rattle.ledger_spec.specs.Calls.{Blossom};
ghost use Rattle.bench_views.specs.Canon.{Canon};
ghost use Rattle.bench_views.specs.Fit.{SoundWords};
ghost use Rattle.bench_views.specs.View.{view};
ghost use Rattle.deed_circles.specs.Given.{hands_given, pairs_given};
ghost use Rattle.outcomes.specs.Answered.{Answered};

use bench_words::WORDS;
use kinds::numbers;
use outcomes::Made;

// The number that add blossom is refused by, or 0. Only reads.
pub fn blossom_number(b: &[u64; WORDS], unit: u8, members: &[u64], touching: &[u64]) -> u8
    requires { Canon b.now }
    ensures { result ≡ first (blossom_tests (view b.now) unit (hands_given members.now) (pairs_given touching.now)) }
{
    let named = read_sound::unit_number(b, unit);
    if named != 0 {
        return named;
    }
    let shape = refuse_circles::shape_number(members, touching);
    if shape != 0 {
        return shape;
    }
    let nodes = refuse_circles::nodes_number(b, unit, members, touching);
    if nodes != 0 {
        return nodes;
    }
    if refuse_circles::given_twice(members) {
        return numbers::TWICE;
    }
    refuse_calls::room_number(b, unit)
}

// Makes a blossom of the members, which stay in it, and gives its handle; or refuses, with no word changed.
pub fn create_blossom(b: &mut [u64; WORDS], unit: u8, members: &[u64], touching: &[u64]) -> Made
    requires { SoundWords b.old }
    ensures { Answered b.old (Blossom unit (hands_given members.now) (pairs_given touching.now)) result.number result.node b.new }
{
    let number = blossom_number(b, unit, members, touching);
    if number != 0 {
        return Made::refused(number);
    }
    let node = deed_circles::add_blossom(b, unit as usize, members, touching);
    Made { number: 0, node }
}
