#![tactic(auto)]
// Whether a slice is a file of records, read from the trailer back, and what it holds: how many records, where the list starts, how many bytes its
// text has, whether every pair is the member. One pass, and nothing is copied. Assumes nothing.
ghost use Rattle.std.specs.Prelude.{◌≡◌, ◌+◌, ◌*◌, ◌≤◌, ◌<◌, length};
ghost use Rattle.record_spec.specs.Files.{records_in, fitting, file_ops};
ghost use Rattle.record_spec.specs.Places.{fours_at};
ghost use Rattle.record_files.specs.Scans.{scanned_of, not_file as «not_file», trailer_of, no_trailer as «no_trailer»};

// The letters DLG2, as a number of 4 bytes, and the most bytes of a file: starts and trailer numbers take 4.
pub const MARK: u64 = 843533380;

pub const LARGEST: usize = 4294967295;

#[derive(Clone, Copy)]
pub struct Scanned {
    pub whole: bool,
    pub count: usize,
    pub start: usize,
    pub text: usize,
    pub own: bool,
}

// A trailer's start of the list and number of records, if its numbers fit the slice.
#[derive(Clone, Copy)]
pub struct Trailer {
    pub fits: bool,
    pub start: usize,
    pub count: usize,
}

fn not_file() -> Scanned
    ensures { result ≡ «not_file» }
{
    Scanned {
        whole: false,
        count: 0,
        start: 0,
        text: 0,
        own: true,
    }
}

// Whether the trailer's numbers fit a file of so many bytes.
#[tactic(auto, unfolding(record_spec::specs::Files::fitting))]
fn is_fitting(size: usize, start: usize, count: usize, before: usize, letters: u64) -> bool
    requires { (16 ≤ size) × ((start < 4294967296) × (count < 4294967296)) }
    ensures { result ≡ fitting size start count before letters }
{
    letters == MARK && before == size - 16 && start + 4 * count == before && size <= LARGEST
}

// The records of t, each at its start: `count` starts stand in s from a place on. The last record ends where t ends.
fn walk(s: &[u8], t: &[u8], list: usize, count: usize) -> Scanned
    requires { (list + 4 * count ≤ length s.now) × (count < 4294967296) }
    ensures { result ≡ scanned_of (records_in 0 (fours_at count s.now list) t.now) }
{
    let mut p: usize = 0;
    let mut text: usize = 0;
    let mut own = true;
    for i in 0..count {
        let start = record_numbers::four_at(s, list + 4 * i);
        if start as usize != p {
            return not_file();
        }
        let m = record_measures::measure(t, p);
        if m.size == 0 {
            return not_file();
        }
        p += m.size;
        text += m.line;
        own = own && m.own;
    }
    if p < t.len() {
        return not_file();
    }
    Scanned {
        whole: true,
        count,
        start: p,
        text,
        own,
    }
}

fn no_trailer() -> Trailer
    ensures { result ≡ «no_trailer» }
{
    Trailer {
        fits: false,
        start: 0,
        count: 0,
    }
}

// What the last 16 bytes say; the records and the list are not looked at.
pub fn read_trailer(s: &[u8]) -> Trailer
    ensures { result ≡ trailer_of s.now }
{
    let size = s.len();
    if size < 16 {
        return no_trailer();
    }
    let place = size - 16;
    let start = record_numbers::four_at(s, place) as usize;
    let count = record_numbers::four_at(s, place + 4) as usize;
    let before = record_numbers::four_at(s, place + 8) as usize;
    let letters = record_numbers::four_at(s, place + 12);
    if is_fitting(size, start, count, before, letters) {
        return Trailer {
            fits: true,
            start,
            count,
        };
    }
    no_trailer()
}

// What a slice holds, if it is a file.
pub fn scan(s: &[u8]) -> Scanned
    ensures { result ≡ scanned_of (file_ops s.now) }
{
    let t = read_trailer(s);
    if t.fits {
        return walk(s, &s[..t.start], t.start, t.count);
    }
    not_file()
}
