#![tactic(auto)]
// A file of records moved to text, into a lent slice: one pass tests and measures it, one writes. What is no file is FILE; then a pair that is not the
// member SELF; a slice that is too short SMALL, last. Refused, the slice is as it was. Assumes nothing.
ghost use Rattle.std.specs.Prelude.{◌+◌, ◌*◌, ◌≤◌, ◌<◌, length};
ghost use Rattle.record_spec.specs.Files.{records_in};
ghost use Rattle.record_spec.specs.Places.{fours_at};
ghost use Rattle.record_spec.specs.Moves.{to_text};
ghost use Rattle.record_packs.specs.Packs.{MovedAs};
ghost use Rattle.record_unpacks.specs.Unpacks.{Ready, Filled};

use kinds::numbers;
use record_packs::Moved;

// The lines of t's records, in the order of their starts: `count` of them stand in s from a place on.
fn fill(s: &[u8], t: &[u8], list: usize, count: usize, out: &mut [u8])
    requires { (list + 4 * count ≤ length s.now) × Ready (records_in 0 (fours_at count s.now list) t.now) (length out.old) }
    ensures { Filled (records_in 0 (fours_at count s.now list) t.now) out.old out.new }
{
    let mut at: usize = 0;
    for i in 0..count {
        let p = record_numbers::four_at(s, list + 4 * i) as usize;
        at = record_lines::put_line(out, at, t, p);
    }
}

// Moves a file of records; answers the bytes written.
pub fn to_text(file: &[u8], out: &mut [u8]) -> Moved
    ensures { MovedAs (to_text file.now out.old) out.new result }
{
    let w = record_files::scan(file);
    if !w.whole {
        return Moved {
            number: numbers::FILE,
            size: 0,
        };
    }
    if !w.own {
        return Moved {
            number: numbers::SELF,
            size: 0,
        };
    }
    let size = w.text;
    if out.len() < size {
        return Moved {
            number: numbers::SMALL,
            size: 0,
        };
    }
    let start = w.start;
    let count = w.count;
    fill(file, &file[..start], start, count, out);
    Moved { number: 0, size }
}
