#![tactic(auto)]
// What a circle, given as words, is refused by: a node that is stale, foreign or inside a blossom, and a member given twice. Lists of any length,
// words of any kind. Everything here only reads. Assumes nothing.
ghost use Rattle.std.specs.Prelude.{◌≡◌, not, ◌<◌, eqb, drop};
ghost use Rattle.ledger_spec.specs.Look.{interface, top, same_handle};
ghost use Rattle.ledger_spec.specs.Tests.{first, any, twice, both};
ghost use Rattle.ledger_spec.specs.Knit.{In};
ghost use Rattle.bench_views.specs.Canon.{Canon};
ghost use Rattle.bench_views.specs.Records.{Steady};
ghost use Rattle.bench_views.specs.View.{view};
ghost use Rattle.bench_views.specs.Given.{hand_given};
ghost use Rattle.deed_circles.specs.Given.{hands_given, pairs_given};
ghost use Rattle.refuse_circles.specs.Marks.{node_mark, list_mark, touch_mark};
ghost use Rattle.refuse_circles.specs.Placed.{Placed, Blank};
ghost use Rattle.refuse_circles.specs.Parts.{shape_tests, nodes_tests};
ghost use Rattle.refuse_circles.specs.Marks as marks;

use bench_words::WORDS;
use kinds::numbers;

// The lower of two numbers, where 0 is none.
fn lower(x: u8, y: u8) -> u8
    ensures { result ≡ marks.lower x y }
{
    if x == 0 {
        return y;
    }
    if y == 0 {
        return x;
    }
    if y < x {
        return y;
    }
    x
}

// Whether an interface stands in another tree than that of one without a parent.
fn is_far(b: &[u64; WORDS], unit: u8, home: usize) -> bool
    requires { Steady b.now × (home < 8) × ((interface (view b.now) unit).parent ≡ None) }
    ensures { result ≡ not (eqb (top (view b.now) home) unit) }
{
    if home == (unit as usize) {
        return false;
    }
    bench_trees::top_of(b, home) != (unit as usize)
}

// What one node is refused by: STALE (8), FOREIGN (9), inside a blossom (11), or 0.
fn word_number(b: &[u64; WORDS], unit: u8, w: u64) -> u8
    requires { Canon b.now × ((interface (view b.now) unit).parent ≡ None) }
    ensures { result ≡ node_mark (view b.now) unit (hand_given w) }
{
    let Some(k) = bench_links::find_word(b, w) else {
        return numbers::STALE;
    };
    if is_far(b, unit, k / 64) {
        return numbers::FOREIGN;
    }
    let n = bench_words::load_node(b, k);
    if n.parent.is_some() {
        return numbers::INSIDE;
    }
    0
}

// The lowest number that any of the words is refused by.
fn list_number(b: &[u64; WORDS], unit: u8, ws: &[u64]) -> u8
    requires { Canon b.now × ((interface (view b.now) unit).parent ≡ None) }
    ensures { result ≡ list_mark (view b.now) unit (hands_given ws.now) }
{
    let mut number: u8 = 0;
    for w in ws {
        number = lower(number, word_number(b, unit, *w));
    }
    number
}

// Whether a word is among those from a place on.
fn again(ws: &[u64], from: usize, w: u64) -> bool
    requires { Placed ws.now × In w ws.now }
    ensures { result ≡ any (same_handle (hand_given w)) (hands_given (drop from ws.now)) }
{
    // `from` may be past the end, so the rest is no slice: the place itself is counted.
    for i in from..ws.len() {
        if ws[i] == w {
            return true;
        }
    }
    false
}

// Whether any of the words is given twice, each compared with those after it: for few.
fn compared_twice(ws: &[u64]) -> bool
    requires { Placed ws.now }
    ensures { result ≡ twice (hands_given ws.now) }
{
    for (i, w) in ws.iter().enumerate() {
        if again(ws, i + 1, *w) {
            return true;
        }
    }
    false
}

// The same by a mark at each word's position, which no two words share: for many.
fn marked_twice(ws: &[u64], seen: &mut [u8; 512]) -> bool
    requires { Placed ws.now × Blank seen.old }
    ensures { result ≡ twice (hands_given ws.now) }
{
    for w in ws {
        let k = deed_circles::spot(*w);
        if seen[k] == 1 {
            return true;
        }
        seen[k] = 1;
    }
    false
}

// Whether any of the words is given twice.
pub fn given_twice(ws: &[u64]) -> bool
    requires { Placed ws.now }
    ensures { result ≡ twice (hands_given ws.now) }
{
    if ws.len() < 6 {
        return compared_twice(ws);
    }
    let mut seen: [u8; 512] = [0; 512];
    marked_twice(ws, &mut seen)
}

// A circle of none or of more than 64 (6), touching handles that are not two a member (7), or 0. One left over counts as a pair.
pub fn shape_number(members: &[u64], touching: &[u64]) -> u8
    ensures { result ≡ first (shape_tests (hands_given members.now) (pairs_given touching.now)) }
{
    let n = members.len();
    if n == 0 {
        return numbers::CIRCLE;
    }
    if 64 < n {
        return numbers::CIRCLE;
    }
    let m = touching.len();
    if m == 0 {
        return 0;
    }
    if m / 2 + m % 2 != n {
        return numbers::TOUCH;
    }
    0
}

// What touching handles are refused by: STALE (8), FOREIGN (9), or 0. They may be inside a blossom. One left over goes with a stale one.
fn touching_number(b: &[u64; WORDS], unit: u8, touching: &[u64]) -> u8
    requires { Canon b.now × ((interface (view b.now) unit).parent ≡ None) }
    ensures { result ≡ touch_mark (view b.now) unit (both (pairs_given touching.now)) }
{
    if touching.len() % 2 == 1 {
        return numbers::STALE;
    }
    let number = list_number(b, unit, touching);
    if number == 11 {
        return 0;
    }
    number
}

// What members and touching handles are refused by: STALE (8) and FOREIGN (9) of all, inside a blossom (11) of a member, or 0.
pub fn nodes_number(b: &[u64; WORDS], unit: u8, members: &[u64], touching: &[u64]) -> u8
    requires { Canon b.now × ((interface (view b.now) unit).parent ≡ None) }
    ensures { result ≡ first (nodes_tests (view b.now) unit (hands_given members.now) (pairs_given touching.now)) }
{
    let number = list_number(b, unit, members);
    lower(number, touching_number(b, unit, touching))
}
