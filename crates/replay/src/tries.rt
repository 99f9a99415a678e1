// A refused line, looked at twice: every word is as it was before; and on the same words with no next serial, which no bench has, the line is BROKEN
// whatever else is wrong with it, and again every word stays.
use crate::tapes;
use crate::tapes::ROOM;
use bench_words::WORDS;

// A number that no answer ends in: said where a refused line did what it should not.
const WRONG: i64 = -77;

pub fn same_words(a: &[u64; WORDS], b: &[u64; WORDS]) -> bool {
    a == b
}

// The answer as it was said, with one number more where it is wrong.
pub fn held(out: &mut [i64; ROOM], said: usize, right: bool) -> usize {
    if right {
        return said;
    }
    tapes::say(out, said, WRONG)
}
