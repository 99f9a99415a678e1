#![tactic(auto)]
// The calls on a group of obstacles in place, over the words that the caller lends: each reads and writes only the words that it is about.
// The words hold a sound group: every call requires it, and leaves them so. An obstacle is its five words. Assumes nothing.
ghost use Rattle.std.specs.Prelude.{◌≡◌, true, ℕ, ◌-◌};
ghost use Rattle.kinds.specs.Obstacles.{listable};
ghost use Rattle.ledger_spec.specs.GroupCalls.{is_empty, is_active, growth_of, peek};
ghost use Rattle.groups.specs.Shown.{shown_asked};
ghost use Rattle.group_lent.specs.Forms.{is_form, obstacle_of};
ghost use Rattle.group_lent.specs.Place.{group_in, SoundGroup};
ghost use Rattle.group_lent_takes.specs.After.{least_word, either_word, grown_words, listed_words, top_five};
ghost use Rattle.group_lent_takes.specs.Made.{Emptied, Added, maybe_seen, Popped};

use group_lent::{Five, GROUP};
use groups::Asked;
use kinds::numbers;

const LARGEST: u64 = 9223372036854775807;

// A number, and the words of the obstacle on top, five zeros where there is none.
#[derive(Clone, Copy)]
pub struct Top {
    pub number: u8,
    pub obstacle: Five,
}

// (largest weight, no): from any words, and only three of them change.
pub fn empty_group(w: &mut [u64; GROUP])
    ensures { Emptied w.old w.new }
{
    group_lent::all_words(w);
    w[0] = 1;
    w[1] = LARGEST;
    w[2] = 0;
}

// ---- reads

// A growth of largest weight, either flag.
pub fn is_empty(w: &[u64; GROUP]) -> bool
    requires { SoundGroup w.now }
    ensures { (0, result) ≡ is_empty (group_in w.now) }
{
    (w[0] == 1) & (w[1] == LARGEST)
}

// All but (largest, no).
pub fn is_active(w: &[u64; GROUP]) -> bool
    requires { SoundGroup w.now }
    ensures { (0, result) ≡ is_active (group_in w.now) }
{
    (w[0] != 1) | ((w[1] != LARGEST) | (w[2] == 1))
}

// The length of a growth, refused by NOTHING (21) where it is the largest; none of conflicts.
pub fn get_none_zero_growth(w: &[u64; GROUP]) -> Asked
    requires { SoundGroup w.now }
    ensures { shown_asked result ≡ growth_of (group_in w.now) }
{
    let l = w[1];
    if w[0] != 1 {
        return Asked {
            number: 0,
            length: None,
        };
    }
    if l == LARGEST {
        return Asked {
            number: numbers::NOTHING,
            length: None,
        };
    }
    let length = group_lent::length_of(l);
    Asked {
        number: 0,
        length: Some(length),
    }
}

// ---- add of a growth

// The word of the lesser length.
pub fn least(a: u64, b: u64) -> u64
    ensures { result ≡ least_word a b }
{
    let x = group_lent::length_of(a);
    let y = group_lent::length_of(b);
    if y < x {
        return b;
    }
    a
}

fn either(a: u64, b: u64) -> u64
    ensures { result ≡ either_word a b }
{
    if b == 1 {
        return 1;
    }
    a
}

// Conflicts stay as they are.
pub fn add_growth(w: &mut [u64; GROUP], f: Five) -> u8
    requires sound_group { SoundGroup w.old }
    requires kind_value { f.kind ≡ 1 }
    ensures { (v : ℕ) → Added f v w.old (grown_words w.old f) result w.new }
{
    if w[0] != 1 {
        return 0;
    }
    let l = least(w[1], f.a);
    let h = either(w[2], f.b);
    w[1] = l;
    w[2] = h;
    0
}

// ---- add of what is listed

// A growth becomes conflicts with the one entry. ROOM (20) where there are 128 already.
pub fn add_listed(w: &mut [u64; GROUP], f: Five) -> u8
    requires sound_group { SoundGroup w.old }
    requires f_value { (is_form f ≡ true) × (listable (obstacle_of f) ≡ true) }
    ensures { (v : ℕ) → Added f v w.old (listed_words w.old f) result w.new }
{
    if w[0] == 1 {
        group_lent::put_five(w, 5, f);
        let head = Five {
            kind: 2,
            a: 0,
            b: 0,
            c: 1,
            d: 0,
        };
        group_lent::put_five(w, 0, head);
        return 0;
    }
    let n = w[3] as usize;
    if 128 <= n {
        return numbers::ROOM;
    }
    group_lent::put_five(w, 5 + n * 5, f);
    w[3] = (n + 1) as u64;
    0
}

// ---- peek and pop

fn top_of(w: &[u64; GROUP]) -> Five
    requires { SoundGroup w.now }
    ensures { result ≡ top_five w.now }
{
    if w[0] == 1 {
        return group_lent::no_obstacle();
    }
    let n = w[3] as usize;
    if 0 < n {
        return group_lent::five_at(w, n * 5);
    }
    if 0 < w[4] {
        return group_lent::five_at(w, 646);
    }
    group_lent::no_obstacle()
}

// KIND (10) of a growth.
pub fn peek(w: &[u64; GROUP]) -> Top
    requires { SoundGroup w.now }
    ensures top { result.obstacle ≡ top_five w.now }
    ensures seen { (result.number, maybe_seen result.obstacle) ≡ peek (group_in w.now) }
{
    let obstacle = top_of(w);
    if w[0] == 1 {
        return Top {
            number: numbers::KIND,
            obstacle,
        };
    }
    Top {
        number: 0,
        obstacle,
    }
}

// One fewer, where there is one.
fn less(n: u64) -> u64
    ensures { result ≡ n - 1 }
{
    if n == 0 {
        return 0;
    }
    n - 1
}

// The last of the list and the stop of smallest vertex go. KIND (10) of a growth.
pub fn pop(w: &mut [u64; GROUP]) -> Top
    requires { SoundGroup w.old }
    ensures { Popped w.old result w.new }
{
    let top = peek(w);
    if w[0] == 1 {
        return top;
    }
    let n = less(w[3]);
    let m = less(w[4]);
    group_lent::slide(w, 645, (m as usize) * 6);
    w[3] = n;
    w[4] = m;
    top
}
