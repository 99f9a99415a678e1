#![tactic(auto)]
// The nodes that an obstacle names, in order, for a caller that has to look each up: add asks it of the obstacle, extend of every entry and stop of the
// other group. proofs/Handles.antt has the turns and the end of such a loop over a group. Assumes nothing.
ghost use Rattle.std.specs.Prelude.{◌≡◌};
ghost use Rattle.ledger_spec.specs.GroupCalls.{handles_of};
ghost use Rattle.group_handles.specs.Named.{named_by};

use kinds::{Handle, Obstacle};

// Up to four nodes.
#[derive(Clone, Copy)]
pub enum Nodes {
    None,
    One(Handle),
    Two(Handle, Handle),
    Three(Handle, Handle, Handle),
    Four(Handle, Handle, Handle, Handle),
}

pub fn nodes_of(o: Obstacle) -> Nodes
    ensures { named_by result ≡ handles_of o }
{
    match o {
        Obstacle::NonZeroGrow(_, _) => Nodes::None,
        Obstacle::Conflicting(p, q) => {
            let a = p.node;
            let b = p.touching;
            let c = q.node;
            let d = q.touching;
            Nodes::Four(a, b, c, d)
        }
        Obstacle::TouchingVirtual(p, _, _) => {
            let a = p.node;
            let b = p.touching;
            Nodes::Two(a, b)
        }
        Obstacle::BlossomNeedExpand(n) => Nodes::One(n),
        Obstacle::VertexShrinkStop(n, pair) => match pair {
            None => Nodes::One(n),
            Some(p) => {
                let a = p.node;
                let b = p.touching;
                Nodes::Three(n, a, b)
            }
        },
    }
}
