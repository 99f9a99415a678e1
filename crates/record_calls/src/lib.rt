#![tactic(auto)]
// One operation at a place of a file's bytes, on a sound bench: read in place, its serials made nodes by hints that no answer depends on, and its call made.
// A blossom's members and touching nodes stand in two lent slices meanwhile; what those hold says nothing. Assumes nothing.
ghost use Rattle.std.specs.Prelude.{◌≡◌, ◌+◌, ◌*◌, ◌≤◌, length, drop, get_or};
ghost use Rattle.bench_views.specs.Fit.{SoundWords};
ghost use Rattle.record_spec.specs.Reader.{record_in};
ghost use Rattle.record_measures.specs.Measures.{members_at};
ghost use Rattle.record_reads.specs.Reads.{Recorded};
ghost use Rattle.record_calls.specs.Done.{Laid, DoneAt};

use bench_serials::HINTS;
use bench_words::WORDS;
use text_numbers::Reply;

// As many members of a blossom as are looked at: one more than a circle may have, which is enough to refuse it. And two touching nodes for each.
pub const MEMBERS: usize = 65;

pub const TOUCHING: usize = 130;

// Lays the serials of the first n members from place q on, and of their pairs, two by two.
fn lay(s: &[u8], q: usize, n: usize, members: &mut [u64], touching: &mut [u64])
    requires { (q + 12 * n ≤ length s.now) × ((n ≤ length members.old) × (2 * n ≤ length touching.old)) }
    ensures { Laid (members_at n s.now q) n members.old touching.old members.new touching.new }
{
    for i in 0..n {
        let at = q + 12 * i;
        let serial = record_numbers::four_at(s, at);
        let first = record_numbers::four_at(s, at + 4);
        let second = record_numbers::four_at(s, at + 8);
        members[i] = serial;
        touching[2 * i] = first;
        touching[2 * i + 1] = second;
    }
}

fn blossom(
    b: &mut [u64; WORDS],
    s: &[u8],
    p: usize,
    members: &mut [u64],
    touching: &mut [u64],
    hints: &mut [u16; HINTS],
) -> Reply
    requires { SoundWords b.old × (Recorded s.now p × ((get_or s.now p 0 ≡ 66) × ((65 ≤ length members.old) × (130 ≤ length touching.old)))) }
    ensures { DoneAt b.old (record_in (drop p s.now)) result b.new }
{
    let unit = s[p + 1];
    let count = record_numbers::two_at(s, p + 2);
    let n = text_calls::few(count as usize);
    let pairs = 2 * n;
    lay(s, p + 4, n, members, touching);
    text_members::name(b, members, n, hints);
    text_members::name(b, touching, pairs, hints);
    let made = call_sound_blossom::create_blossom(b, unit, &members[..n], &touching[..pairs]);
    text_calls::keep(made, hints);
    text_calls::tell(b, unit, made)
}

// Does what the record at place p says.
pub fn perform(
    b: &mut [u64; WORDS],
    s: &[u8],
    p: usize,
    members: &mut [u64],
    touching: &mut [u64],
    hints: &mut [u16; HINTS],
) -> Reply
    requires { SoundWords b.old × (Recorded s.now p × ((65 ≤ length members.old) × (130 ≤ length touching.old))) }
    ensures { DoneAt b.old (record_in (drop p s.now)) result b.new }
{
    if s[p] == b'B' {
        return blossom(b, s, p, members, touching, hints);
    }
    let line = record_reads::line_at(s, p);
    text_calls::turn(b, line, members, hints)
}
