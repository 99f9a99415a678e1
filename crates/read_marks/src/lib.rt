#![tactic(auto)]
// The reads of an interface's marks, on words that hold a sound bench. None changes the bench. Assumes nothing.
ghost use Rattle.std.specs.Prelude.{◌≡◌};
ghost use Rattle.bench_words.specs.Codec.{pick};
ghost use Rattle.ledger_spec.specs.Reads.{fills_of, floored_of};
ghost use Rattle.bench_views.specs.View.{view};
ghost use Rattle.read_marks.specs.Shown.{shown_mark};

use bench_words::WORDS;

// A number, and whether the interface bears the mark.
#[derive(Clone, Copy)]
pub struct Marked {
    pub number: u8,
    pub marked: bool,
}

// Whether the interface bears a mark, that of its floor or that of its slots: UNIT, CHILD, or the answer.
fn is_marked(b: &[u64; WORDS], unit: u8, floor: bool) -> Marked
    ensures { shown_mark result ≡ pick floor (floored_of (view b.now) unit) (fills_of (view b.now) unit) }
{
    let number = read_sound::unit_number(b, unit);
    if number != 0 {
        return Marked {
            number,
            marked: false,
        };
    }
    let f = bench_words::load_interface(b, unit as usize);
    let marks = f.marks;
    if floor {
        return Marked {
            number: 0,
            marked: marks.floored,
        };
    }
    Marked {
        number: 0,
        marked: marks.fills,
    }
}

// Whether the interface gives a new node its lowest empty slot.
pub fn is_filling(b: &[u64; WORDS], unit: u8) -> Marked
    ensures { shown_mark result ≡ fills_of (view b.now) unit }
{
    is_marked(b, unit, false)
}

// Whether no value of the interface's tree may fall below 0.
pub fn is_floored(b: &[u64; WORDS], unit: u8) -> Marked
    ensures { shown_mark result ≡ floored_of (view b.now) unit }
{
    is_marked(b, unit, true)
}
