// Whether words are the code of what is loaded from them: the sound test's only view of single words. Assumes nothing.
ghost use Rattle.std.specs.Prelude.{◌≡◌, ◌<◌};
ghost use Rattle.bench_words.specs.Coding.{blank_at, coded_at, spare_at, link_at, flags_at};

use crate::{PAST_HANDLES, WORDS};

// The slot holds nothing at all.
pub fn is_blank(b: &[u64; WORDS], k: usize) -> bool
    requires { k < 512 }
    ensures { result ≡ blank_at b.now k }
{
    let at = 128 + k * 12;
    (b[at + 1] == 0)
        & ((b[at + 2] == 0)
            & ((b[at + 3] == 0)
                & ((b[at + 4] == 0)
                    & ((b[at + 5] == 0)
                        & ((b[at + 6] == 0)
                            & ((b[at + 7] == 0)
                                & ((b[at + 8] == 0)
                                    & ((b[at + 9] == 0)
                                        & ((b[at + 10] == 0)
                                            & ((b[at + 11] == 0) & (b[at + 12] == 0)))))))))))
}

// Serial, class, state, parent and touching handles of a node have no stray bits. Its other words are numbers as they stand.
pub fn is_coded(b: &[u64; WORDS], k: usize) -> bool
    requires { k < 512 }
    ensures { result ≡ coded_at b.now k }
{
    let at = 128 + k * 12;
    (b[at + 1] < 4294967296)
        & ((b[at + 2] < 4294967298)
            & ((b[at + 3] <= 2)
                & ((b[at + 4] <= PAST_HANDLES)
                    & ((b[at + 7] < PAST_HANDLES) & (b[at + 8] < PAST_HANDLES)))))
}

// The words that no interface has yet are zero.
pub fn is_spare(b: &[u64; WORDS], u: usize) -> bool
    requires { u < 8 }
    ensures { result ≡ spare_at b.now u }
{
    let at = u * 16;
    (b[at + 10] == 0)
        & ((b[at + 11] == 0)
            & ((b[at + 12] == 0)
                & ((b[at + 13] == 0)
                    & ((b[at + 14] == 0) & ((b[at + 15] == 0) & (b[at + 16] == 0))))))
}

// The word of an interface's parent names one of eight.
pub fn is_link(b: &[u64; WORDS], u: usize) -> bool
    requires { u < 8 }
    ensures { result ≡ link_at b.now u }
{
    let at = u * 16;
    b[at + 5] <= 8
}

// The word of an interface's marks has no stray bit, and the engine is that of interface 0.
pub fn is_flags(b: &[u64; WORDS], u: usize) -> bool
    requires { u < 8 }
    ensures { result ≡ flags_at b.now u }
{
    let at = u * 16;
    let w = b[at + 9];
    (w <= 7) & (w / 4 == b[9] / 4)
}
