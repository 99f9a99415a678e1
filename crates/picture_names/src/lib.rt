#![tactic(auto)]
// A node's state in a picture: the word, and the number that says the same. Assumes nothing.
ghost use Rattle.ledger_spec.specs.Named.{state_named};
ghost use Rattle.picture_spec.specs.Text.{state_text, growth_text};
ghost use Rattle.picture_pieces.specs.Drawn.{Drawn};

use kinds::GrowState;

pub fn put_state(out: &mut [u8], at: usize, state: GrowState) -> usize
    ensures { Drawn out.old at (state_text (state_named state)) out.new result }
{
    match state {
        GrowState::Grow => picture_pieces::put(out, at, b"\"grow\""),
        GrowState::Stay => picture_pieces::put(out, at, b"\"stay\""),
        GrowState::Shrink => picture_pieces::put(out, at, b"\"shrink\""),
    }
}

pub fn put_growth(out: &mut [u8], at: usize, state: GrowState) -> usize
    ensures { Drawn out.old at (growth_text (state_named state)) out.new result }
{
    match state {
        GrowState::Grow => picture_pieces::put(out, at, b"1"),
        GrowState::Stay => picture_pieces::put(out, at, b"0"),
        GrowState::Shrink => picture_pieces::put(out, at, b"-1"),
    }
}
