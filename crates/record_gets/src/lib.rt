#![tactic(auto)]
// The k-th record of any bytes, in constant time by the trailer and the list, written as words into a lent slice: letter, then the record's fields. FILE where
// trailer, list or record do not fit, RANGE where there is no such record, SMALL last. Refused, the slice is as it was. Assumes nothing.
ghost use Rattle.std.specs.Prelude.{◌≡◌, ◌+◌, ◌*◌, ◌≤◌, ◌<◌, length};
ghost use Rattle.record_packs.specs.Packs.{MovedAs};
ghost use Rattle.record_gets.specs.Kth.{listed, kth_of, begins as «first_begins», end_of};
ghost use Rattle.record_gets.specs.Words.{get_into};
ghost use Rattle.record_gets.specs.Gets.{Finds};

use kinds::numbers;
use record_packs::Moved;

mod words; // words.rt: an operation's words

// Where a record stands, or the number by which it is refused.
#[derive(Clone, Copy)]
pub struct Found {
    pub number: u8,
    pub place: usize,
}

fn begins(k: usize, from: usize) -> bool
    ensures { result ≡ «first_begins» k from }
{
    k != 0 || from == 0
}

// Where record k ends: where the next starts, the last where the list starts.
fn end_of(s: &[u8], list: usize, count: usize, k: usize) -> usize
    requires { (list + 4 * count ≤ length s.now) × (k < count) }
    ensures { result ≡ end_of s.now list count k }
{
    if k + 1 < count {
        return record_numbers::four_at(s, list + 4 * (k + 1)) as usize;
    }
    list
}

// Record k of `count`, whose starts stand from `list` on; the records end there.
fn stand(s: &[u8], list: usize, count: usize, k: usize) -> Found
    requires { (list + 4 * count + 16 ≤ length s.now) × (k < count) }
    ensures { Finds (listed s.now list count k) s.now result }
{
    let from = record_numbers::four_at(s, list + 4 * k) as usize;
    let to = end_of(s, list, count, k);
    let m = record_measures::measure(&s[..list], from);
    if !begins(k, from) || m.size == 0 {
        return Found {
            number: numbers::FILE,
            place: 0,
        };
    }
    if from + m.size != to {
        return Found {
            number: numbers::FILE,
            place: 0,
        };
    }
    Found {
        number: 0,
        place: from,
    }
}

// Record k, from the trailer back.
fn find(s: &[u8], k: usize) -> Found
    ensures { Finds (kth_of s.now k) s.now result }
{
    let t = record_files::read_trailer(s);
    if !t.fits {
        return Found {
            number: numbers::FILE,
            place: 0,
        };
    }
    if t.count <= k {
        return Found {
            number: numbers::RANGE,
            place: 0,
        };
    }
    stand(s, t.start, t.count, k)
}

// The words of record k, the first being 0; answers how many were written.
pub fn get(file: &[u8], k: usize, out: &mut [u64]) -> Moved
    ensures { MovedAs (get_into file.now k out.old) out.new result }
{
    let f = find(file, k);
    if f.number != 0 {
        return Moved {
            number: f.number,
            size: 0,
        };
    }
    let p = f.place;
    let front = words::front_of(record_reads::line_at(file, p));
    let size = front.many + 3 * front.members;
    if out.len() < size {
        return Moved {
            number: numbers::SMALL,
            size: 0,
        };
    }
    words::put_front(out, front);
    words::put_members(file, p + 4, front.members, out, front.many);
    Moved { number: 0, size }
}
