#![tactic(auto)]
// A node's place: outside any circle it has none; in one it is a staying member that its blossom's circle comes to after so many steps. Everything
// here only reads, and any words may be lent. Assumes nothing.
ghost use Rattle.std.specs.Prelude.{◌≡◌, ◌<◌};
ghost use Rattle.bench_words.specs.Store.{node_at};
ghost use Rattle.bench_words.proofs.Laws.{GoodHandle, GoodParent};
ghost use Rattle.bench_views.specs.Records.{Steady};
ghost use Rattle.bench_views.specs.Canon.{walk};
ghost use Rattle.sound_seats.specs.Seats.{is_stay, alone_test, seat_test, parent_test};

use bench_words::{Node, WORDS};
use kinds::{GrowState, Handle};

fn is_stay(g: GrowState) -> bool
    ensures { result ≡ is_stay g }
{
    g == GrowState::Stay
}

// The link of the node at any position: there is none past the last slot.
fn next_of(b: &[u64; WORDS], p: u64) -> u64
    requires { Steady b.now }
    ensures { result ≡ (node_at b.now p).next }
{
    if 512 <= p {
        return 0;
    }
    let n = bench_words::load_node(b, p as usize);
    n.next
}

// So many steps along a circle.
fn walk(b: &[u64; WORDS], first: u64, steps: u64) -> u64
    requires { Steady b.now }
    ensures { result ≡ walk steps (node_at b.now) first }
{
    let mut p = first;
    for _ in 0..steps {
        p = next_of(b, p);
    }
    p
}

#[tactic(auto, unfolding(crate::specs::Seats::alone_test))]
fn is_alone(n: Node) -> bool
    ensures { result ≡ alone_test n }
{
    let untouched = (n.left == Handle::nobody()) & (n.right == Handle::nobody());
    ((n.place == 0) & (n.next == 0)) & untouched
}

// The node n at position k, in a tree with this top, is a member of the blossom q.
fn is_seated(b: &[u64; WORDS], k: usize, top: usize, n: Node, q: Handle) -> bool
    requires steady { Steady b.now }
    requires good_handle { GoodHandle q }
    ensures { result ≡ seat_test b.now k top n q }
{
    let m = bench_words::load_node(b, (q.unit as usize) * 64 + (q.slot as usize));
    if 64 < m.count {
        return false;
    }
    if m.count <= n.place {
        return false;
    }
    let state = n.state;
    let class = m.class;
    let stays = is_stay(state);
    let ring = class.is_blossom();
    let above = bench_trees::top_of(b, q.unit as usize);
    let seat = walk(b, m.first, n.place);
    (stays & (n.serial.0 < q.serial.0))
        & (((m.serial.0 == q.serial.0) & ring) & ((above == top) & (seat == (k as u64))))
}

// Where a node's parent says it is.
pub fn is_parent(b: &[u64; WORDS], k: usize, top: usize, n: Node) -> bool
    requires steady { Steady b.now }
    requires good_parent { GoodParent n.parent }
    ensures { result ≡ parent_test b.now k top n }
{
    let parent = n.parent;
    match parent {
        None => is_alone(n),
        Some(q) => is_seated(b, k, top, n, q),
    }
}
