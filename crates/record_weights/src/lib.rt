#![tactic(auto)]
// A text tested and weighed: whether each line is of the grammar and ended by a newline, how many there are, and how many bytes their records take.
// The first of the two passes from text to records; it writes nothing. Assumes nothing.
ghost use Rattle.std.specs.Prelude.{◌≡◌, ◌<◌};
ghost use Rattle.record_spec.specs.Moves.{text_ops};
ghost use Rattle.record_weights.specs.Weights.{size_by, not_text as «not_text», weighed_of};

use text_lines::Line;

// What a text holds: nothing that moves, if it is not whole.
#[derive(Clone, Copy)]
pub struct Weighed {
    pub whole: bool,
    pub count: usize,
    pub size: usize,
}

fn not_text() -> Weighed
    ensures { result ≡ «not_text» }
{
    Weighed {
        whole: false,
        count: 0,
        size: 0,
    }
}

// How many bytes a line's record takes; 0 for a line that is not of the grammar.
pub fn record_size(line: Line) -> usize
    requires { size_by line < 4294967296 }
    ensures { result ≡ size_by line }
{
    match line {
        Line::Defect { unit: _, vertex: _ } => 6,
        Line::Blossom { unit: _, count } => 4 + 12 * count,
        Line::Expand { unit: _, serial: _ } => 6,
        Line::SetState {
            unit: _,
            serial: _,
            state: _,
        } => 7,
        Line::Grow { unit: _, length: _ } => 10,
        Line::Fuse {
            parent: _,
            left: _,
            right: _,
        } => 4,
        Line::Clear { unit: _ } => 2,
        Line::Check { unit: _ } => 2,
        Line::Wrong => 0,
    }
}

// What a text holds. It stops where the file would be larger than its numbers can say.
pub fn weigh(text: &[u8]) -> Weighed
    ensures { result ≡ weighed_of (text_ops text.now) }
{
    let mut scratch: [u64; 1] = [0; 1];
    let mut start: usize = 0;
    let mut count: usize = 0;
    let mut size: usize = 0;
    // A turn goes on by the line that it read, so the number of turns is not known beforehand.
    while start < text.len() {
        let e = text_fields::part_end(text, start, b'\n');
        if e == text.len() {
            return not_text();
        }
        let line = text_lines::read_line(&text[start..e], &mut scratch);
        let n = record_size(line);
        if n == 0 {
            return not_text();
        }
        size += n;
        count += 1;
        if record_files::LARGEST < size + (4 * count + 16) {
            return not_text();
        }
        start = e + 1;
    }
    Weighed {
        whole: true,
        count,
        size,
    }
}
