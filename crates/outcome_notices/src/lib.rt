#![tactic(auto)]
// What a call tells the dual module, by value: the notices in order and, once beside them, the circle of "shrink prepared".
// Entries past the counts are blank, so that a list of notices has one value. The caller has been accepted by its tests. Assumes nothing.
ghost use Rattle.std.specs.Prelude.{◌≡◌, [], ◌∷◌, ◌≤◌, length};
ghost use Rattle.ledger_spec.specs.Named.{handle_named, state_named};
ghost use Rattle.ledger_spec.specs.Notices.{defect_added, state_set, grown};
ghost use Rattle.bench_views.specs.Given.{hand_given};
ghost use Rattle.deed_circles.specs.Given.{hands_given};
ghost use Rattle.bench_views.specs.View.{view};
ghost use Rattle.bench_views.specs.Fit.{Fit};
ghost use Rattle.outcome_notices.specs.Laid.{packed, laid, only};
ghost use Rattle.outcome_notices.specs.Lists.{Ring, blossom_made, blossom_gone};

use bench_words::WORDS;
use kinds::{GrowState, Handle, Notice};

// A notice in its place. (An array of enums is no field that the checker walks; an array of these is.)
#[derive(Clone, Copy)]
pub struct Told {
    pub notice: Notice,
}

// The first `count` of `told` count, and the first `members` of `circle`.
#[derive(Clone, Copy)]
pub struct Notices {
    pub told: [Told; Notice::MOST],
    pub count: usize,
    pub circle: [Handle; Notices::CIRCLE],
    pub members: usize,
}

impl Notices {
    pub const CIRCLE: usize = 64;
}

// Nothing is told: fuse, clear, reads, and every refusal.
pub fn none() -> Notices
    ensures { result ≡ laid [] }
{
    let blank = Told {
        notice: Notice::Grown(0),
    };
    let nobody = Handle::nobody();
    let told = [blank; Notice::MOST];
    let circle = [nobody; Notices::CIRCLE];
    Notices {
        told,
        count: 0,
        circle,
        members: 0,
    }
}

fn one(e: Told) -> Notices
    ensures { result ≡ only e }
{
    let mut r = none();
    r.told[0] = e;
    r.count = 1;
    r
}

pub fn defect(h: Handle) -> Notices
    ensures { result ≡ laid (defect_added (handle_named h) ∷ []) }
{
    one(Told {
        notice: Notice::DefectAdded(h),
    })
}

pub fn state(h: Handle, s: GrowState) -> Notices
    ensures { result ≡ laid (state_set (handle_named h) (state_named s) ∷ []) }
{
    one(Told {
        notice: Notice::StateSet(h, s),
    })
}

pub fn grown(l: i64) -> Notices
    ensures { result ≡ laid (grown l ∷ []) }
{
    one(Told {
        notice: Notice::Grown(l),
    })
}

// The handle that a word gives: one of no bench where the word is no packed handle.
fn hand(w: u64) -> Handle
    ensures { result ≡ packed (hand_given w) }
{
    bench_words::hand_of(w)
}

// Each member stays, in order; then the circle is prepared to shrink, and the blossom q is added.
pub fn blossom(members: &[u64], q: Handle) -> Notices
    requires { length members.now ≤ 64 }
    ensures { result ≡ laid (blossom_made (hands_given members.now) (handle_named q)) }
{
    let mut r = none();
    for (i, w) in members.iter().enumerate() {
        let h = hand(*w);
        r.told[i] = Told {
            notice: Notice::StateSet(h, GrowState::Stay),
        };
        r.circle[i] = h;
    }
    let n = members.len();
    r.told[n] = Told {
        notice: Notice::ShrinkPrepared,
    };
    r.told[n + 1] = Told {
        notice: Notice::BlossomAdded(q),
    };
    r.count = n + 2;
    r.members = n;
    r
}

// The blossom that h names goes; then each member grows, in circle order. Made from the words before the call.
pub fn expand(b: &[u64; WORDS], h: Handle) -> Notices
    requires { Fit b.now × Ring (view b.now) (handle_named h) }
    ensures { result ≡ laid (blossom_gone (view b.now) (handle_named h)) }
{
    let n = bench_words::load_node(b, (h.unit as usize) * 64 + (h.slot as usize));
    let count = n.count as usize;
    let mut r = none();
    r.told[0] = Told {
        notice: Notice::BlossomRemoved(h),
    };
    let mut at = n.first as usize;
    for i in 0..count {
        let m = bench_words::load_node(b, at);
        let g = Handle {
            unit: (at / 64) as u8,
            slot: (at % 64) as u8,
            serial: m.serial,
        };
        r.told[i + 1] = Told {
            notice: Notice::StateSet(g, GrowState::Grow),
        };
        at = m.next as usize;
    }
    r.count = count + 1;
    r
}
