#![tactic(auto)]
// Lines out of chunks. What is held of a line that is not ended yet is its first 1,024 bytes, in a lent slice of 1,024: as many as tell that it is
// overlong. However the input is cut into chunks, its lines are `lines_of` of the whole (proofs/Chunks). And the first line's choice of an engine. Assumes
// nothing.
ghost use Rattle.std.specs.Prelude.{◌≡◌, [], ◌∷◌, ◌++◌, ◌≤◌, length, take, drop};
ghost use Rattle.ledger_spec.specs.Opening.{chosen};
ghost use Rattle.text_chunks.specs.Chunks.{Feeds};
ghost use Rattle.text_chunks.specs.Choices.{choice_of};

// Whether a line ended, how many bytes of it are held, and where the rest of the chunk starts.
#[derive(Clone, Copy)]
pub struct Fed {
    pub ended: bool,
    pub held: usize,
    pub at: usize,
}

impl Fed {
    // The most bytes that are held of a line.
    pub const MOST: usize = 1024;
}

// One byte more is held, unless 1,024 are.
fn push(buf: &mut [u8], held: usize, b: u8) -> usize
    requires { (length buf.old ≡ 1024) × (held ≤ 1024) }
    ensures { (result ≤ 1024) × (take result buf.new ≡ take 1024 (take held buf.old ++ (b ∷ []))) }
{
    if held < Fed::MOST {
        buf[held] = b;
        return held + 1;
    }
    held
}

// Takes bytes of a chunk up to the end of a line, or of the chunk, onto what is held.
pub fn feed(chunk: &[u8], at: usize, buf: &mut [u8], held: usize) -> Fed
    requires { (at ≤ length chunk.now) × ((length buf.old ≡ 1024) × (held ≤ 1024)) }
    ensures { Feeds at (drop at chunk.now) (take held buf.old) chunk.now buf.new result.ended result.held result.at }
{
    let mut n = held;
    for i in at..chunk.len() {
        let b = chunk[i];
        if b == b'\n' {
            return Fed {
                ended: true,
                held: n,
                at: i + 1,
            };
        }
        n = push(buf, n, b);
    }
    Fed {
        ended: false,
        held: n,
        at: chunk.len(),
    }
}

// The engine that a line of these bytes chooses where it is the first of its input.
pub fn engine_chosen(line: &[u8]) -> Option<bool>
    ensures { choice_of result ≡ chosen line.now }
{
    match line {
        b"M 1" => Some(true),
        b"M 0" => Some(false),
        _ => None,
    }
}
