#![tactic(auto)]
// The circle of a blossom in a picture: its members' indices, or those of the nodes that they touch by, as a list. Only the lent bytes are written.
// Assumes nothing.
ghost use Rattle.std.specs.Prelude.{◌≡◌, map, ◌<◌};
ghost use Rattle.bench_words.specs.Store.{node_at};
ghost use Rattle.kinds.specs.declared.Class.TheVariants.{Blossom};
ghost use Rattle.ledger_spec.specs.Named.{handle_named};
ghost use Rattle.bench_views.specs.Fit.{Fit};
ghost use Rattle.bench_views.specs.View.{view, member_at, circle_of};
ghost use Rattle.bench_vertices.specs.Under.{Placed};
ghost use Rattle.picture_spec.specs.Sketch.{linked, index_of};
ghost use Rattle.picture_spec.specs.Text.{array};
ghost use Rattle.picture_pieces.specs.Drawn.{Drawn};
ghost use Rattle.picture_indices.specs.Indices.{Indices};
ghost use Rattle.picture_circles.specs.Member.{member_text};

use bench_words::WORDS;
use kinds::Handle;

// The index of a handle, in one step.
pub fn index_of(b: &[u64; WORDS], unit: usize, index: &[u64; 512], h: Handle) -> u64
    requires indices { Indices b.now unit index.now }
    requires unit_bound { h.unit < 8 }
    requires slot_bound { h.slot < 64 }
    ensures { result ≡ index_of (view b.now) unit (handle_named h) }
{
    let k = (h.unit as usize) * 64 + (h.slot as usize);
    index[k]
}

// The member at position q: its index, or the two that it touches by.
fn put_member(
    b: &[u64; WORDS],
    unit: usize,
    index: &[u64; 512],
    out: &mut [u8],
    at: usize,
    q: usize,
    touching: bool,
) -> usize
    requires indices { Indices b.now unit index.now }
    requires q_bound { q < 512 }
    ensures { Drawn out.old at (member_text touching (linked (index_of (view b.now) unit) (member_at (node_at b.now) q))) out.new result }
{
    if !touching {
        return picture_pieces::put_number(out, at, index[q]);
    }
    let n = bench_words::load_node(b, q);
    let i = index_of(b, unit, index, n.left);
    let j = index_of(b, unit, index, n.right);
    let p = picture_pieces::put(out, at, b"[");
    let x = picture_pieces::put_number(out, p, i);
    let y = picture_pieces::put(out, x, b",");
    let z = picture_pieces::put_number(out, y, j);
    picture_pieces::put(out, z, b"]")
}

// All members of the blossom at position k, in circle order.
pub fn put_circle(
    b: &[u64; WORDS],
    unit: usize,
    index: &[u64; 512],
    out: &mut [u8],
    at: usize,
    k: usize,
    touching: bool,
) -> usize
    requires fit { Fit b.now }
    requires indices { Indices b.now unit index.now }
    requires placed { Placed b.now k }
    requires k_value { (node_at b.now k).class ≡ Blossom }
    ensures { Drawn out.old at (array (member_text touching) (map (linked (index_of (view b.now) unit)) (circle_of (node_at b.now) k))) out.new result }
{
    let n = bench_words::load_node(b, k);
    let mut r = picture_pieces::put(out, at, b"[");
    let mut p = n.first;
    let mut i: u64 = 0;
    for _ in 0..n.count {
        let q = p as usize;
        let s = picture_pieces::put_comma(out, r, i);
        r = put_member(b, unit, index, out, s, q, touching);
        let x = bench_words::load_node(b, q);
        p = x.next;
        i = 1;
    }
    picture_pieces::put(out, r, b"]")
}
