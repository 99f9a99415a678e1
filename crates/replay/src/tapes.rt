// A recording's lines: a letter and numbers in, numbers out. A row has room for what any recorded line holds; what is past it is left out, and
// then does not compare. Assumes nothing.
ghost use Rattle.replay.specs.Counts.{Counts};

pub const ROOM: usize = 8192;

// The number at a place of a row of n, 0 past its end.
pub fn number(row: &[i64; ROOM], n: usize, i: usize) -> i64 {
    if i < n {
        if i < 8192 {
            return row[i];
        }
    }
    0
}

// Adds a number to a row of n; answers how many there are then.
pub fn say(row: &mut [i64; ROOM], n: usize, z: i64) -> usize {
    if n < 8192 {
        row[n] = z;
        return n + 1;
    }
    n
}

// Reads the numbers of a line, which follow its letter; answers how many there are.
pub fn numbers(s: &[u8], row: &mut [i64; ROOM]) -> usize {
    let mut place: usize = 1;
    for n in 0..ROOM {
        match text_fields::next_length(s, place) {
            Some((z, e)) => {
                say(row, n, z);
                place = e;
            }
            None => {
                return n;
            }
        }
    }
    ROOM
}

// Whether two rows hold the same numbers.
pub fn same(a: &[i64; ROOM], m: usize, b: &[i64; ROOM], n: usize) -> bool {
    if m != n {
        return false;
    }
    (0..m).all(|i: usize| number(a, m, i) == number(b, n, i))
}

// A number that is not negative; 0 for one that is.
pub fn natural(z: i64) -> u64 {
    if z < 0 {
        return 0;
    }
    z as u64
}

// n, or the list's length where that is less: a number of elements that the list can lend.
pub fn within(n: usize, list: &[u64]) -> usize
    ensures { Counts result list.now }
{
    if list.len() < n {
        return list.len();
    }
    n
}

pub fn vertices_within(n: usize, list: &[u32]) -> usize
    ensures { Counts result list.now }
{
    if list.len() < n {
        return list.len();
    }
    n
}

pub fn bytes_within(n: usize, text: &[u8]) -> usize
    ensures { Counts result text.now }
{
    if text.len() < n {
        return text.len();
    }
    n
}
