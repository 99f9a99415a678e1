// A blossom's serials: counted first, and stored only where all of them are serials, since a line that is wrong leaves what it was lent. Assumes nothing.
ghost use Rattle.std.specs.Prelude.{◌≡◌, List, ℕ, set};
ghost use Rattle.std.proofs.lemmas.List.Edits.{sets};
ghost use Rattle.ledger_spec.specs.Grammar.{all_serials as «all_serials», «some_serials»};
ghost use Rattle.text_fields.specs.Places.{from};
ghost use Rattle.text_lines.specs.Counts.{counted};
ghost use Rattle.text_lines.specs.Shown.{ReadAs};

use crate::Line;

// How many serials the fields after a place are, if each is one.
fn count_serials(s: &[u8], place: usize) -> Option<usize>
    ensures { result ≡ counted («all_serials» (from s.now place)) }
{
    let mut e = place;
    let mut n: usize = 0;
    // A turn goes on by the field that it read, so the number of turns is not known beforehand.
    while e < s.len() {
        let (_, z) = text_fields::next_number(s, e, 1, 4294967295)?;
        n += 1;
        e = z;
    }
    Some(n)
}

// A store that is dropped past the end.
fn put(out: &mut [u64], i: usize, v: u64)
    ensures { out.new ≡ set out.old i v }
{
    if i < out.len() {
        out[i] = v;
    }
}

// The serials after a place, where each field is one.
fn store_serials(s: &[u8], place: usize, out: &mut [u64])
    ensures { (ns : List ℕ) → «all_serials» (from s.now place) ≡ Some ns → out.new ≡ sets out.old 0 ns }
{
    let mut e = place;
    let mut n: usize = 0;
    // A turn goes on by the field that it read, so the number of turns is not known beforehand.
    while e < s.len() {
        let Some((v, z)) = text_fields::next_number(s, e, 1, 4294967295) else {
            return;
        };
        put(out, n, v);
        n += 1;
        e = z;
    }
}

pub fn blossom(s: &[u8], serials: &mut [u64], unit: u8, place: usize) -> Line
    ensures { ReadAs («some_serials» unit (from s.now place)) serials.old serials.new result }
{
    if place < s.len() {
        let Some(count) = count_serials(s, place) else {
            return Line::Wrong;
        };
        store_serials(s, place, serials);
        return Line::Blossom { unit, count };
    }
    Line::Wrong
}
