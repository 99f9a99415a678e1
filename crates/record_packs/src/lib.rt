#![tactic(auto)]
// A text moved to a file of records, into a lent slice: one pass tests and measures it, one writes. A text that does not move is FILE, a slice that is
// too short SMALL, last; then the slice is as it was. Assumes nothing.
ghost use Rattle.std.specs.Prelude.{◌+◌, ◌*◌, ◌≤◌, ◌<◌, length};
ghost use Rattle.text_decimals.specs.Wrote.{Wrote};
ghost use Rattle.record_spec.specs.Files.{trailer};
ghost use Rattle.record_spec.specs.Moves.{to_records, text_ops};
ghost use Rattle.record_packs.specs.Packs.{Ready, Filled, MovedAs};

use kinds::numbers;

// The most serials that a line has: each takes a byte of it.
const SERIALS: usize = 1024;

// A move's number, and how many bytes it wrote.
#[derive(Clone, Copy)]
pub struct Moved {
    pub number: u8,
    pub size: usize,
}

// The start of the list, how many records, the bytes before the trailer, the letters.
fn put_trailer(out: &mut [u8], at: usize, start: u64, count: u64) -> usize
    requires { (at + 16 ≤ length out.old) × ((start < 4294967296) × (count < 4294967296)) }
    ensures { Wrote out.old at (trailer start count) out.new result }
{
    let p = record_numbers::put_four(out, at, start);
    let q = record_numbers::put_four(out, p, count);
    let r = record_numbers::put_four(out, q, start + 4 * count);
    record_numbers::put_four(out, r, record_files::MARK)
}

// The records and the list of a text that moves: `start` bytes of records, and then where each starts.
fn fill(text: &[u8], out: &mut [u8], start: usize)
    requires { Ready (text_ops text.now) start (length out.old) }
    ensures { Filled (text_ops text.now) out.old start out.new }
{
    let mut serials: [u64; SERIALS] = [0; SERIALS];
    let mut from: usize = 0;
    let mut p: usize = 0;
    let mut entry = start;
    // A turn goes on by the line that it moved, so the number of turns is not known beforehand.
    while from < text.len() {
        let e = text_fields::part_end(text, from, b'\n');
        let line = text_lines::read_line(&text[from..e], &mut serials);
        let next = record_puts::put_record(out, p, line, &serials);
        record_numbers::put_four(out, entry, p as u64);
        p = next;
        entry += 4;
        from = e + 1;
    }
}

// Moves a text; answers the bytes written.
pub fn to_records(text: &[u8], out: &mut [u8]) -> Moved
    ensures { MovedAs (to_records text.now out.old) out.new result }
{
    let w = record_weights::weigh(text);
    if !w.whole {
        return Moved {
            number: numbers::FILE,
            size: 0,
        };
    }
    let start = w.size;
    let count = w.count;
    let end = start + 4 * count;
    let size = end + 16;
    if out.len() < size {
        return Moved {
            number: numbers::SMALL,
            size: 0,
        };
    }
    fill(text, out, start);
    put_trailer(out, end, start as u64, count as u64);
    Moved { number: 0, size }
}
