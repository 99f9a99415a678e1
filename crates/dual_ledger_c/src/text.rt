// The exports of dual_ledger::text, the text program's lines and chunks: each has the clauses of the function that it calls. Assumes nothing.
ghost use Rattle.bench_views.specs.Fit.{SoundWords};
ghost use Rattle.link_text.specs.Text.{ChunkBy, ChunkOn, OpeningBy, EndBy};
ghost use Rattle.dual_ledger.specs.Texts.{LineBy, LineLeft};

use bench_serials::HINTS;
use bench_words::WORDS;
use link_text::HELD;

#[unsafe(no_mangle)]
pub extern "C" fn dual_ledger_text_line(
    bench: &mut [u64; WORDS],
    line: &[u8],
    hints: &mut [u16; HINTS],
    serial: &mut u64,
    speed: &mut u64,
    sum: &mut u64,
) -> u8
    ensures { LineLeft bench.old line.now result serial.new speed.new sum.new bench.new }
{
    dual_ledger::text::dual_ledger_text_line(bench, line, hints, serial, speed, sum)
}

#[unsafe(no_mangle)]
pub extern "C" fn dual_ledger_trusted_text_line(
    bench: &mut [u64; WORDS],
    line: &[u8],
    hints: &mut [u16; HINTS],
    serial: &mut u64,
    speed: &mut u64,
    sum: &mut u64,
) -> u8
    requires { SoundWords bench.old }
    ensures { LineBy bench.old line.now result serial.new speed.new sum.new bench.new }
{
    dual_ledger::text::dual_ledger_trusted_text_line(bench, line, hints, serial, speed, sum)
}

#[unsafe(no_mangle)]
pub extern "C" fn dual_ledger_text_chunk(
    bench: &mut [u64; WORDS],
    chunk: &[u8],
    buf: &mut [u8; HELD],
    held: &mut usize,
    hints: &mut [u16; HINTS],
    out: &mut [u8],
    wrote: &mut usize,
) -> u8
    ensures { ChunkOn bench.old chunk.now buf.old held.old out.old bench.new buf.new out.new result held.new wrote.new }
{
    dual_ledger::text::dual_ledger_text_chunk(bench, chunk, buf, held, hints, out, wrote)
}

#[unsafe(no_mangle)]
pub extern "C" fn dual_ledger_trusted_text_chunk(
    bench: &mut [u64; WORDS],
    chunk: &[u8],
    buf: &mut [u8; HELD],
    held: &mut usize,
    hints: &mut [u16; HINTS],
    out: &mut [u8],
    wrote: &mut usize,
) -> u8
    requires { SoundWords bench.old }
    ensures { ChunkBy bench.old chunk.now buf.old held.old out.old bench.new buf.new out.new result held.new wrote.new }
{
    dual_ledger::text::dual_ledger_trusted_text_chunk(bench, chunk, buf, held, hints, out, wrote)
}

#[unsafe(no_mangle)]
pub extern "C" fn dual_ledger_text_opening(
    bench: &mut [u64; WORDS],
    chunk: &[u8],
    buf: &mut [u8; HELD],
    held: &mut usize,
    hints: &mut [u16; HINTS],
    out: &mut [u8],
    wrote: &mut usize,
) -> u8
    ensures { OpeningBy bench.old chunk.now buf.old held.old out.old bench.new buf.new out.new result held.new wrote.new }
{
    dual_ledger::text::dual_ledger_text_opening(bench, chunk, buf, held, hints, out, wrote)
}

#[unsafe(no_mangle)]
pub extern "C" fn dual_ledger_text_end(held: usize, out: &mut [u8], wrote: &mut usize) -> u8
    ensures { EndBy held out.old out.new result wrote.new }
{
    dual_ledger::text::dual_ledger_text_end(held, out, wrote)
}
