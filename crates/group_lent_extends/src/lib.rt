#![tactic(auto)]
// One group extended by another, in place: of a growth three words are read and two written; of conflicts what counts of the other is copied once, and its
// stops are added where they stand. Both hold a sound group, and so does what is left. Assumes nothing.
ghost use Rattle.std.specs.Prelude.{◌≡◌, ◌+◌, ◌≤◌, length};
ghost use Rattle.group_lent.specs.Place.{listed, Listing, SoundGroup};
ghost use Rattle.group_lent_extends.specs.Extends.{length_after, flag_after, paired_words, copied, taken_words, appended_words, Extended};
ghost use Rattle.group_lent_extends.specs.Stages.{Roomy, Ended};

use group_lent::{Five, GROUP};
use kinds::numbers;

const LARGEST: u64 = 9223372036854775807;

// ---- a growth by a growth

fn length_after(a: u64, b: u64) -> u64
    ensures { result ≡ length_after a b }
{
    if b == LARGEST {
        return a;
    }
    group_lent_takes::least(a, b)
}

fn flag_after(a: u64, f: u64, b: u64, h: u64) -> u64
    ensures { result ≡ flag_after a f b h }
{
    if b == LARGEST {
        return f;
    }
    let x = group_lent::length_of(a);
    let y = group_lent::length_of(b);
    if y < x {
        return h;
    }
    if x < y {
        return f;
    }
    if f == 1 {
        return h;
    }
    0
}

fn pair(w: &mut [u64; GROUP], other: &[u64; GROUP])
    ensures { w.new ≡ paired_words w.old other.now }
{
    let l = length_after(w[1], other[1]);
    let h = flag_after(w[1], w[2], other[1], other[2]);
    w[1] = l;
    w[2] = h;
}

// ---- by conflicts

// The k words from `from` on come to `at`. Most groups have no entries or no stops: then nothing is called.
fn copy(w: &mut [u64; GROUP], at: usize, other: &[u64; GROUP], from: usize, k: usize)
    requires w_len { (length w.old ≡ 1413) × (length other.now ≡ 1413) }
    requires k_bound { (at + k ≤ 1413) × (from + k ≤ 1413) }
    ensures { w.new ≡ copied w.old at other.now from k }
{
    if k == 0 {
        return;
    }
    w[at..at + k].copy_from_slice(&other[from..from + k]);
}

fn take_over(w: &mut [u64; GROUP], other: &[u64; GROUP])
    requires w_len { (length w.old ≡ 1413) × (length other.now ≡ 1413) }
    requires listing { Listing other.now }
    ensures { w.new ≡ taken_words w.old other.now }
{
    let n = other[3] as usize;
    let m = other[4] as usize;
    copy(w, 5, other, 5, n * 5);
    copy(w, 645, other, 645, m * 6);
    let head = Five {
        kind: 2,
        a: 0,
        b: 0,
        c: n as u64,
        d: m as u64,
    };
    group_lent::put_five(w, 0, head);
}

fn append(w: &mut [u64; GROUP], other: &[u64; GROUP])
    requires w_len { (length w.old ≡ 1413) × (length other.now ≡ 1413) }
    requires other_bound { listed w.old + listed other.now ≤ 128 }
    ensures { w.new ≡ appended_words w.old other.now }
{
    let n = w[3] as usize;
    let k = other[3] as usize;
    copy(w, 5 + n * 5, other, 5, k * 5);
    w[3] = (n + k) as u64;
}

// There is room for each of them.
fn add_stops(w: &mut [u64; GROUP], other: &[u64; GROUP])
    requires roomy { Roomy w.old other.now }
    requires listing { Listing other.now }
    ensures { Ended w.old other.now w.new }
{
    let m = other[4] as usize;
    for j in 0..m {
        let v = other[645 + j * 6];
        let f = group_lent::five_at(other, 645 + j * 6 + 1);
        group_lent_stops::add_stop(w, f, v);
    }
}

// A growth of largest weight and a growth added to conflicts have no effect. ROOM (20) where list or stops would pass 128 at any step.
pub fn extend(w: &mut [u64; GROUP], other: &[u64; GROUP]) -> u8
    requires sound_group { SoundGroup w.old }
    requires sound_group_2 { SoundGroup other.now }
    ensures { Extended w.old other.now result w.new }
{
    if other[0] == 1 {
        if w[0] == 1 {
            pair(w, other);
            return 0;
        }
        return 0;
    }
    if w[0] == 1 {
        take_over(w, other);
        return 0;
    }
    if !group_lent_room::has_room(w, other) {
        return numbers::ROOM;
    }
    append(w, other);
    add_stops(w, other);
    0
}
