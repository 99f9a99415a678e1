#![tactic(auto)]
// A record's line with its newline, written at a place of a lent slice that has room for it. A pair is not looked at: the line has none. Assumes nothing.
ghost use Rattle.std.specs.Prelude.{◌+◌, ◌*◌, ◌≤◌, ◌<◌, [], ◌∷◌, length, drop};
ghost use Rattle.ledger_spec.specs.Decimals.{decimal, signed};
ghost use Rattle.text_decimals.specs.Wrote.{Wrote};
ghost use Rattle.record_spec.specs.Numbers.{length_in};
ghost use Rattle.record_spec.specs.Places.{at as «number_at»};
ghost use Rattle.record_spec.specs.Reader.{record_in};
ghost use Rattle.record_lines.specs.Lines.{line_in, Ready, tail, state_text, serial_fields, fields_at, bytes_at};

// A space and a number.
fn put_field(out: &mut [u8], at: usize, n: u64) -> usize
    requires { at + length (32 ∷ decimal n) ≤ length out.old }
    ensures { Wrote out.old at (32 ∷ decimal n) out.new result }
{
    out[at] = b' ';
    text_decimals::put_number(out, at + 1, n)
}

// A space and the number in the 4 bytes from q on.
fn put_word(out: &mut [u8], at: usize, t: &[u8], q: usize) -> usize
    requires { (at + length (32 ∷ decimal («number_at» 4 t.now q)) ≤ length out.old) × (q + 4 ≤ length t.now) }
    ensures { Wrote out.old at (32 ∷ decimal («number_at» 4 t.now q)) out.new result }
{
    let n = record_numbers::four_at(t, q);
    put_field(out, at, n)
}

// A space and a minus, and then a number.
fn put_below(out: &mut [u8], at: usize, n: u64) -> usize
    requires { at + length (32 ∷ 45 ∷ decimal n) ≤ length out.old }
    ensures { Wrote out.old at (32 ∷ 45 ∷ decimal n) out.new result }
{
    out[at] = b' ';
    out[at + 1] = b'-';
    text_decimals::put_number(out, at + 2, n)
}

// A space and a state, by its byte.
fn put_state(out: &mut [u8], at: usize, n: u64) -> usize
    requires { at + length (32 ∷ state_text n) ≤ length out.old }
    ensures { Wrote out.old at (32 ∷ state_text n) out.new result }
{
    if n == 255 {
        return put_below(out, at, 1);
    }
    put_field(out, at, n)
}

// A space and a length, by its number in 8 bytes.
fn put_length(out: &mut [u8], at: usize, n: u64) -> usize
    requires { at + length (32 ∷ signed (length_in n)) ≤ length out.old }
    ensures { Wrote out.old at (32 ∷ signed (length_in n)) out.new result }
{
    if n < 9223372036854775808 {
        return put_field(out, at, n);
    }
    let m = record_measures::digits::size_below(n);
    put_below(out, at, m)
}

// The serials of so many members, which stand from q on with a pair after each.
fn put_serials(out: &mut [u8], at: usize, t: &[u8], q: usize, count: usize) -> usize
    requires { (at + length (tail (serial_fields count t.now q)) ≤ length out.old) × (q + 12 * count ≤ length t.now) }
    ensures { Wrote out.old at (tail (serial_fields count t.now q)) out.new result }
{
    let mut place = at;
    for i in 0..count {
        let n = record_numbers::four_at(t, q + 12 * i);
        place = put_field(out, place, n);
    }
    place
}

// The fields of `S` after the unit.
fn put_serial_state(out: &mut [u8], at: usize, serial: u64, state: u64) -> usize
    requires { at + length (tail (decimal serial ∷ state_text state ∷ [])) ≤ length out.old }
    ensures { Wrote out.old at (tail (decimal serial ∷ state_text state ∷ [])) out.new result }
{
    let p = put_field(out, at, serial);
    put_state(out, p, state)
}

// The fields of `F` after the parent.
fn put_halves(out: &mut [u8], at: usize, left: u64, right: u64) -> usize
    requires { at + length (tail (decimal left ∷ decimal right ∷ [])) ≤ length out.old }
    ensures { Wrote out.old at (tail (decimal left ∷ decimal right ∷ [])) out.new result }
{
    let p = put_field(out, at, left);
    put_field(out, p, right)
}

// What stands after the unit.
fn put_fields(out: &mut [u8], at: usize, t: &[u8], letter: u8, q: usize) -> usize
    requires { (at + length (tail (fields_at letter t.now q)) ≤ length out.old) × (q + bytes_at letter t.now q ≤ length t.now) }
    ensures { Wrote out.old at (tail (fields_at letter t.now q)) out.new result }
{
    match letter {
        b'D' => put_word(out, at, t, q),
        b'E' => put_word(out, at, t, q),
        b'B' => {
            let n = record_numbers::two_at(t, q);
            put_serials(out, at, t, q + 2, n as usize)
        }
        b'S' => {
            let n = record_numbers::four_at(t, q);
            let g = record_numbers::byte_at(t, q + 4);
            put_serial_state(out, at, n, g)
        }
        b'G' => {
            let n = record_numbers::eight_at(t, q);
            put_length(out, at, n)
        }
        b'F' => {
            let left = record_numbers::byte_at(t, q);
            let right = record_numbers::byte_at(t, q + 1);
            put_halves(out, at, left, right)
        }
        _ => at,
    }
}

// The line of the record at place p of t.
pub fn put_line(out: &mut [u8], at: usize, t: &[u8], p: usize) -> usize
    requires { Ready (record_in (drop p t.now)) at (length out.old) }
    ensures { Wrote out.old at (line_in (record_in (drop p t.now))) out.new result }
{
    let letter = t[p];
    let unit = record_numbers::byte_at(t, p + 1);
    out[at] = letter;
    let a = put_field(out, at + 1, unit);
    let b = put_fields(out, a, t, letter, p + 2);
    out[b] = b'\n';
    b + 1
}
