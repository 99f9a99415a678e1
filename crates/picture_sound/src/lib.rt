#![tactic(auto)]
// The picture of an interface (docs/MANUAL.md, The picture) on words that hold a sound bench: measured first, and written only where it fits. The bench does
// not change; UNIT (3), CHILD (4), UNSOUND (24) and SMALL (19) refuse, in this order. Assumes nothing.
ghost use Rattle.std.specs.Prelude.{◌≡◌, ◌<◌};
ghost use Rattle.ledger_spec.specs.Look.{interface};
ghost use Rattle.bench_views.specs.Fit.{Fit};
ghost use Rattle.bench_views.specs.View.{view};
ghost use Rattle.read_sound.specs.Shown.{shown_vertices};
ghost use Rattle.check_places.specs.Places.{Places};
ghost use Rattle.picture_spec.specs.Picture.{picture, picture_into};
ghost use Rattle.picture_pieces.specs.Drawn.{Drawn};
ghost use Rattle.picture_indices.specs.Indices.{Indices};
ghost use Rattle.picture_sound.specs.Fitted.{fitted};

use bench_words::WORDS;
use kinds::numbers;
use picture_pieces::{put, put_either, put_signed};
use read_sound::Counted;

// Puts the whole text at the front; answers its length.
fn draw(
    b: &[u64; WORDS],
    unit: usize,
    places: &[usize; 512],
    count: usize,
    index: &[u64; 512],
    out: &mut [u8],
    short: bool,
) -> usize
    requires fit { Fit b.now }
    requires unit_bound { unit < 8 }
    requires unit_value { (interface (view b.now) unit).parent ≡ None }
    requires places { Places b.now unit places.now count }
    requires indices { Indices b.now unit index.now }
    ensures { Drawn out.old 0 (picture (view b.now) unit short) out.new result }
{
    let speed = bench_links::speed(b, unit);
    let sum = bench_links::sum(b, unit);
    let p = put_either(
        out,
        0,
        short,
        b"{\"interface\":{\"s\":",
        b"{\"interface\":{\"sum_grow_speed\":",
    );
    let q = put_signed(out, p, speed);
    let r = put_either(out, q, short, b",\"d\":", b",\"sum_dual_variables\":");
    let s = put_signed(out, r, sum);
    let t = put(out, s, b"},\"dual_nodes\":");
    let u = picture_nodes::put_slots(b, unit, places, count, index, out, t, short);
    put(out, u, b"}")
}

// Of an interface whose check says 0: one pass measures, over a slice without room, and one writes.
fn write(b: &[u64; WORDS], unit: usize, short: bool, out: &mut [u8]) -> Counted
    requires fit { Fit b.now }
    requires unit_bound { unit < 8 }
    requires unit_value { (interface (view b.now) unit).parent ≡ None }
    ensures { shown_vertices result out.new ≡ fitted (picture (view b.now) unit short) out.old }
{
    let mut places = [0usize; 512];
    let count = check_places::list(b, unit, &mut places);
    let index = picture_indices::indices(b, unit, &places, count);
    let mut bare = [0u8; 1];
    let n = draw(b, unit, &places, count, &index, &mut bare, short);
    if out.len() < n {
        return Counted {
            number: numbers::SMALL,
            count: 0,
        };
    }
    let m = draw(b, unit, &places, count, &index, out, short);
    Counted {
        number: 0,
        count: m as u64,
    }
}

// Writes the picture to the front of a slice, whose rest stays, with abbreviated names or full ones; answers its length.
pub fn snapshot(b: &[u64; WORDS], unit: u8, short: bool, out: &mut [u8]) -> Counted
    requires { Fit b.now }
    ensures { shown_vertices result out.new ≡ picture_into (view b.now) unit short out.old }
{
    let number = read_sound::unit_number(b, unit);
    if number != 0 {
        return Counted { number, count: 0 };
    }
    let c = check_sound::sanity_check(b, unit);
    if c.verdict != 0 {
        return Counted {
            number: numbers::UNSOUND,
            count: 0,
        };
    }
    write(b, unit as usize, short, out)
}
