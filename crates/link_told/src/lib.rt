#![tactic(auto)]
// The answers of calls that tell notices, written straight into the words that Rust and C see (include/dual_ledger.h): the node, the counts, the notices and
// the circle; a word that says nothing stays as it was. The caller has been accepted by its tests, or tells nothing. Assumes nothing.
ghost use Rattle.std.specs.Prelude.{◌≡◌, [], ◌∷◌, map, ◌+◌, ◌<◌, ◌≤◌, length};
ghost use Rattle.std.proofs.lemmas.List.Edits.{sets};
ghost use Rattle.ledger_spec.specs.Calls.{nobody};
ghost use Rattle.ledger_spec.specs.Named.{handle_named, state_named};
ghost use Rattle.ledger_spec.specs.Notices.{defect_added, state_set, grown};
ghost use Rattle.bench_views.specs.Given.{hand_given};
ghost use Rattle.bench_views.specs.Fit.{Fit};
ghost use Rattle.bench_views.specs.View.{view};
ghost use Rattle.deed_circles.specs.Given.{hands_given};
ghost use Rattle.outcome_notices.specs.Lists.{Ring, blossom_made, blossom_gone};
ghost use Rattle.link_answers.specs.Forms.{node_word};
ghost use Rattle.link_told.specs.Answers.{state_kind, told_words, said_over};
ghost use Rattle.link_told.specs.Circles.{staying, growing, Walked};

use bench_words::WORDS;
use kinds::{GrowState, Handle};

pub const ANSWER: usize = 199;

// The three words that stand first.
fn put_heads(out: &mut [u64; ANSWER], node: u64, count: u64, members: u64)
    ensures { out.new ≡ sets out.old 0 (node ∷ count ∷ members ∷ []) }
{
    out[0] = node;
    out[1] = count;
    out[2] = members;
}

// A node, and one notice: its kind, and what it is of.
fn put_one(out: &mut [u64; ANSWER], node: u64, kind: u64, what: u64)
    ensures { out.new ≡ sets out.old 0 (node ∷ 1 ∷ 0 ∷ kind ∷ what ∷ []) }
{
    out[0] = node;
    out[1] = 1;
    out[2] = 0;
    out[3] = kind;
    out[4] = what;
}

// No node and no notice: every refusal. Gives its number.
pub fn refused(number: u8, out: &mut [u64; ANSWER]) -> u8
    ensures { (result ≡ number) × (out.new ≡ said_over out.old nobody []) }
{
    put_heads(out, 0, 0, 0);
    number
}

pub fn defect(out: &mut [u64; ANSWER], h: Handle)
    ensures { out.new ≡ said_over out.old (handle_named h) (defect_added (handle_named h) ∷ []) }
{
    let w = link_answers::node_word(h);
    put_one(out, w, 1, w);
}

fn state_kind(s: GrowState) -> u64
    ensures { result ≡ state_kind (state_named s) }
{
    match s {
        GrowState::Grow => 3,
        GrowState::Stay => 2,
        GrowState::Shrink => 4,
    }
}

pub fn state(out: &mut [u64; ANSWER], h: Handle, s: GrowState)
    ensures { out.new ≡ said_over out.old (handle_named h) (state_set (handle_named h) (state_named s) ∷ []) }
{
    let w = link_answers::node_word(h);
    let kind = state_kind(s);
    put_one(out, w, kind, w);
}

pub fn grown(out: &mut [u64; ANSWER], length: i64)
    ensures { out.new ≡ said_over out.old nobody (grown length ∷ []) }
{
    let w = link_answers::signed_word(length);
    put_one(out, 0, 8, w);
}

// A member as it is told: the word that gives it, or that of no bench's handle.
fn member_word(w: u64) -> u64
    ensures { result ≡ node_word (hand_given w) }
{
    let h = link_answers::hand(w);
    link_answers::node_word(h)
}

// Each member stays, in order.
fn put_stays(out: &mut [u64; ANSWER], members: &[u64])
    requires { length members.now ≤ 64 }
    ensures { out.new ≡ sets out.old 3 (told_words (staying members.now)) }
{
    for (i, m) in members.iter().enumerate() {
        let at = i * 2 + 3;
        out[at] = 2;
        out[at + 1] = member_word(*m);
    }
}

// The circle is prepared to shrink, and its blossom is added.
fn put_added(out: &mut [u64; ANSWER], at: usize, node: u64)
    requires { at + 3 < 199 }
    ensures { out.new ≡ sets out.old at (5 ∷ 0 ∷ 6 ∷ node ∷ []) }
{
    out[at] = 5;
    out[at + 1] = 0;
    out[at + 2] = 6;
    out[at + 3] = node;
}

// The circle, beside the notices.
fn put_circle(out: &mut [u64; ANSWER], members: &[u64])
    requires { length members.now ≤ 64 }
    ensures { out.new ≡ sets out.old 135 (map node_word (hands_given members.now)) }
{
    for (i, m) in members.iter().enumerate() {
        out[i + 135] = member_word(*m);
    }
}

// Each member stays, in order; then the circle is prepared to shrink, and the blossom q is added.
pub fn blossom(out: &mut [u64; ANSWER], members: &[u64], q: Handle)
    requires { length members.now ≤ 64 }
    ensures { out.new ≡ said_over out.old (handle_named q) (blossom_made (hands_given members.now) (handle_named q)) }
{
    let n = members.len();
    let w = link_answers::node_word(q);
    put_heads(out, w, (n as u64) + 2, n as u64);
    put_stays(out, members);
    put_added(out, n * 2 + 3, w);
    put_circle(out, members);
}

// Each member of the circle that begins at slot `first` grows, in circle order.
fn put_grows(out: &mut [u64; ANSWER], b: &[u64; WORDS], first: usize, count: usize)
    requires { Walked b.now first count }
    ensures { out.new ≡ sets out.old 5 (told_words (growing b.now first count)) }
{
    let mut at = first;
    for i in 0..count {
        let m = bench_words::load_node(b, at);
        let w = link_answers::node_word(Handle {
            unit: (at / 64) as u8,
            slot: (at % 64) as u8,
            serial: m.serial,
        });
        let to = i * 2 + 5;
        out[to] = 3;
        out[to + 1] = w;
        at = m.next as usize;
    }
}

// The blossom that h names goes; then each member grows, in circle order. Written from the words before the work.
pub fn expanded(out: &mut [u64; ANSWER], b: &[u64; WORDS], h: Handle)
    requires { Fit b.now × Ring (view b.now) (handle_named h) }
    ensures { out.new ≡ said_over out.old (handle_named h) (blossom_gone (view b.now) (handle_named h)) }
{
    let n = bench_words::load_node(b, (h.unit as usize) * 64 + (h.slot as usize));
    let w = link_answers::node_word(h);
    put_heads(out, w, n.count + 1, 0);
    out[3] = 7;
    out[4] = w;
    put_grows(out, b, n.first as usize, n.count as usize);
}
