#![tactic(auto)]
// The public reads of present nodes: any words at all may be lent, with any number and index. The words are tested once; where they hold no sound bench
// the answer is BROKEN (2) without a value; else the read on sound words answers. None changes the bench. Assumes nothing.
ghost use Rattle.std.specs.Prelude.{◌≡◌};
ghost use Rattle.bench_views.specs.View.{view};
ghost use Rattle.read_sound.specs.Shown.{shown_count};
ghost use Rattle.sound_lent.specs.Verdict.{read_words};
ghost use Rattle.read_present.specs.Present.{present_read, next_read};
ghost use Rattle.read_present.specs.Shown.{shown_next};

use bench_words::WORDS;
use kinds::{NodeIndex, numbers};
use read_present::Next;
use read_sound::Counted;

// How many present nodes the tree has.
pub fn present_count(b: &[u64; WORDS], unit: u8) -> Counted
    ensures { shown_count result ≡ read_words b.now (present_read (view b.now) unit) }
{
    if !sound_lent::is_bench(b) {
        let number = numbers::BROKEN;
        return Counted { number, count: 0 };
    }
    read_present::present_count(b, unit)
}

// The next present node at or after an index of the tree, with its own index, or nothing; RANGE (18) at or past the count.
pub fn next_present(b: &[u64; WORDS], unit: u8, index: NodeIndex) -> Next
    ensures { shown_next result ≡ read_words b.now (next_read (view b.now) unit index.0) }
{
    if !sound_lent::is_bench(b) {
        return Next {
            number: numbers::BROKEN,
            index: NodeIndex(0),
            node: None,
        };
    }
    read_present::next_present(b, unit, index)
}
