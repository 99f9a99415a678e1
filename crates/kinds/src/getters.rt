// What an obstacle says, asked by the Rust's names: each answers what its variant holds, or that it is another. Assumes nothing.
ghost use Rattle.std.specs.Prelude.{◌≡◌};
ghost use Rattle.kinds.specs.Obstacles.{length_of, nodes_of, virtual_of, expand_of, stop_of};

use crate::{Handle, Obstacle, Vertex};

impl Obstacle {
    pub fn get_none_zero_growth(self) -> Option<i64>
        ensures { result ≡ length_of self }
    {
        match self {
            Obstacle::NonZeroGrow(length, _) => Some(length),
            _ => None,
        }
    }

    pub fn get_conflicting(self) -> Option<(Handle, Handle)>
        ensures { result ≡ nodes_of self }
    {
        match self {
            Obstacle::Conflicting(p, q) => Some((p.node, q.node)),
            _ => None,
        }
    }

    pub fn get_touching_virtual(self) -> Option<(Handle, Vertex)>
        ensures { result ≡ virtual_of self }
    {
        match self {
            Obstacle::TouchingVirtual(p, v, _) => Some((p.node, v)),
            _ => None,
        }
    }

    pub fn get_blossom_need_expand(self) -> Option<Handle>
        ensures { result ≡ expand_of self }
    {
        match self {
            Obstacle::BlossomNeedExpand(n) => Some(n),
            _ => None,
        }
    }

    pub fn get_vertex_shrink_stop(self) -> Option<Handle>
        ensures { result ≡ stop_of self }
    {
        match self {
            Obstacle::VertexShrinkStop(n, _) => Some(n),
            _ => None,
        }
    }
}
