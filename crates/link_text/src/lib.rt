#![tactic(auto)]
// The text program's engine over lent words and slices, for Rust and C: an input's beginning, a line, a chunk, the input's end. A line and a chunk come in two
// forms, on words that hold a sound bench and on any words; a beginning sets the bench up, on any words. A slice that is too short is SMALL (19), and more held than a line has is BROKEN (2): then nothing has changed.
// Assumes nothing.
ghost use Rattle.std.specs.Prelude.{◌≡◌};
ghost use Rattle.ledger_spec.specs.Grammar.{line_of};
ghost use Rattle.bench_views.specs.Fit.{SoundWords};
ghost use Rattle.text_calls.specs.Turned.{Turned};
ghost use Rattle.link_text.specs.Text.{chunk_no, ChunkBy, LineOn, ChunkOn, OpeningBy, EndBy};

use bench_serials::HINTS;
use bench_words::WORDS;
use kinds::numbers;
use text_numbers::Reply;

// How many bytes of a line that is not ended are held at most.
pub const HELD: usize = 1024;

// A chunk's number; how many bytes are held after it, and how many were written.
#[derive(Clone, Copy)]
pub struct Chunked {
    pub number: u8,
    pub held: usize,
    pub wrote: usize,
}

fn refused(number: u8, held: usize) -> Chunked
    ensures { result ≡ record { number = number; held = held; wrote = 0 } }
{
    Chunked {
        number,
        held,
        wrote: 0,
    }
}

// The number that a chunk is refused by, from what is held, its bytes and the bytes of room for its answers.
fn chunk_no(held: usize, bytes: usize, room: usize) -> u8
    ensures { result ≡ chunk_no held bytes room }
{
    if HELD < held {
        return numbers::BROKEN;
    }
    if room / 57 < bytes {
        return numbers::SMALL;
    }
    0
}

// A line, its newline left out, on words that hold a sound bench.
pub fn line_on_sound(b: &mut [u64; WORDS], line: &[u8], hints: &mut [u16; HINTS]) -> Reply
    requires { SoundWords b.old }
    ensures { Turned b.old (line_of line.now) result b.new }
{
    let mut serials: [u64; text_calls::MOST] = [0; text_calls::MOST];
    let said = text_lines::read_line(line, &mut serials);
    text_calls::turn(b, said, &mut serials, hints)
}

// The same on any words.
pub fn line_on_any(b: &mut [u64; WORDS], line: &[u8], hints: &mut [u16; HINTS]) -> Reply
    ensures { LineOn b.old line.now result b.new }
{
    if !sound_lent::is_bench(b) {
        return text_numbers::silent(numbers::BROKEN, 0);
    }
    line_on_sound(b, line, hints)
}

// A chunk on words that hold a sound bench: each line that it ends is answered, at the front of `out`; what is held stands at the front of `buf`.
pub fn chunk_on_sound(
    b: &mut [u64; WORDS],
    chunk: &[u8],
    buf: &mut [u8; HELD],
    held: usize,
    hints: &mut [u16; HINTS],
    out: &mut [u8],
) -> Chunked
    requires { SoundWords b.old }
    ensures { ChunkBy b.old chunk.now buf.old held out.old b.new buf.new out.new result.number result.held result.wrote }
{
    let number = chunk_no(held, chunk.len(), out.len());
    if number != 0 {
        return refused(number, held);
    }
    let mut serials: [u64; text_calls::MOST] = [0; text_calls::MOST];
    let taken = text_sessions::answer_chunk(b, chunk, buf, held, &mut serials, hints, out);
    Chunked {
        number: 0,
        held: taken.held,
        wrote: taken.wrote,
    }
}

// The same on any words.
pub fn chunk_on_any(
    b: &mut [u64; WORDS],
    chunk: &[u8],
    buf: &mut [u8; HELD],
    held: usize,
    hints: &mut [u16; HINTS],
    out: &mut [u8],
) -> Chunked
    ensures { ChunkOn b.old chunk.now buf.old held out.old b.new buf.new out.new result.number result.held result.wrote }
{
    if !sound_lent::is_bench(b) {
        return refused(numbers::BROKEN, held);
    }
    chunk_on_sound(b, chunk, buf, held, hints, out)
}

// A chunk that begins an input, or goes on with its first line, on any words: they become the bench that the input starts with. Nothing is written exactly
// where the first line is not ended yet: then the next chunk opens too.
pub fn opening(
    b: &mut [u64; WORDS],
    chunk: &[u8],
    buf: &mut [u8; HELD],
    held: usize,
    hints: &mut [u16; HINTS],
    out: &mut [u8],
) -> Chunked
    ensures { OpeningBy b.old chunk.now buf.old held out.old b.new buf.new out.new result.number result.held result.wrote }
{
    let number = chunk_no(held, chunk.len(), out.len());
    if number != 0 {
        return refused(number, held);
    }
    let mut serials: [u64; text_calls::MOST] = [0; text_calls::MOST];
    let taken = text_sessions::answer_opening(b, chunk, buf, held, &mut serials, hints, out);
    Chunked {
        number: 0,
        held: taken.held,
        wrote: taken.wrote,
    }
}

// The input ends: a last line without newline is answered as LINE.
pub fn end(held: usize, out: &mut [u8]) -> Chunked
    ensures { EndBy held out.old out.new result.number result.wrote }
{
    if out.len() < 57 {
        return refused(numbers::SMALL, held);
    }
    let wrote = text_sessions::finish(held, out, 0);
    Chunked {
        number: 0,
        held: 0,
        wrote,
    }
}
