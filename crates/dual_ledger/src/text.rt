// The text program over lent words and slices: an input's beginning, a line's call and its numbers, a chunk's answers as bytes, the input's end. A line and a
// chunk on any words are BROKEN (2) where those hold no sound bench; a beginning sets the bench up. Hints may hold anything: no answer depends on them. Assumes nothing.
ghost use Rattle.bench_views.specs.Fit.{SoundWords};
ghost use Rattle.link_text.specs.Text.{ChunkBy, ChunkOn, OpeningBy, EndBy};
ghost use Rattle.dual_ledger.specs.Texts.{LineBy, LineLeft};

use bench_serials::HINTS;
use bench_words::WORDS;
use link_text::HELD;

pub fn dual_ledger_text_line(
    bench: &mut [u64; WORDS],
    line: &[u8],
    hints: &mut [u16; HINTS],
    serial: &mut u64,
    speed: &mut u64,
    sum: &mut u64,
) -> u8
    ensures { LineLeft bench.old line.now result serial.new speed.new sum.new bench.new }
{
    let any = link_text::line_on_any(bench, line, hints);
    *serial = any.serial as u64;
    *speed = link_answers::signed_word(any.speed);
    *sum = link_answers::signed_word(any.sum);
    any.number
}

pub fn dual_ledger_trusted_text_line(
    bench: &mut [u64; WORDS],
    line: &[u8],
    hints: &mut [u16; HINTS],
    serial: &mut u64,
    speed: &mut u64,
    sum: &mut u64,
) -> u8
    requires { SoundWords bench.old }
    ensures { LineBy bench.old line.now result serial.new speed.new sum.new bench.new }
{
    let said = link_text::line_on_sound(bench, line, hints);
    *serial = said.serial as u64;
    *speed = link_answers::signed_word(said.speed);
    *sum = link_answers::signed_word(said.sum);
    said.number
}

pub fn dual_ledger_text_chunk(
    bench: &mut [u64; WORDS],
    chunk: &[u8],
    buf: &mut [u8; HELD],
    held: &mut usize,
    hints: &mut [u16; HINTS],
    out: &mut [u8],
    wrote: &mut usize,
) -> u8
    ensures { ChunkOn bench.old chunk.now buf.old held.old out.old bench.new buf.new out.new result held.new wrote.new }
{
    let start = *held;
    let a = link_text::chunk_on_any(bench, chunk, buf, start, hints, out);
    *held = a.held;
    *wrote = a.wrote;
    a.number
}

pub fn dual_ledger_trusted_text_chunk(
    bench: &mut [u64; WORDS],
    chunk: &[u8],
    buf: &mut [u8; HELD],
    held: &mut usize,
    hints: &mut [u16; HINTS],
    out: &mut [u8],
    wrote: &mut usize,
) -> u8
    requires { SoundWords bench.old }
    ensures { ChunkBy bench.old chunk.now buf.old held.old out.old bench.new buf.new out.new result held.new wrote.new }
{
    let start = *held;
    let a = link_text::chunk_on_sound(bench, chunk, buf, start, hints, out);
    *held = a.held;
    *wrote = a.wrote;
    a.number
}

pub fn dual_ledger_text_opening(
    bench: &mut [u64; WORDS],
    chunk: &[u8],
    buf: &mut [u8; HELD],
    held: &mut usize,
    hints: &mut [u16; HINTS],
    out: &mut [u8],
    wrote: &mut usize,
) -> u8
    ensures { OpeningBy bench.old chunk.now buf.old held.old out.old bench.new buf.new out.new result held.new wrote.new }
{
    let start = *held;
    let a = link_text::opening(bench, chunk, buf, start, hints, out);
    *held = a.held;
    *wrote = a.wrote;
    a.number
}

pub fn dual_ledger_text_end(held: usize, out: &mut [u8], wrote: &mut usize) -> u8
    ensures { EndBy held out.old out.new result wrote.new }
{
    let a = link_text::end(held, out);
    *wrote = a.wrote;
    a.number
}
