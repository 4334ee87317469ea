// Taking along a path, and granting what is so taken.
ghost use Rattle.model.specs.Exact.{taking_along, taking_to};
ghost use Rattle.witness.specs.Plans.{Does, given};

use super::Plan;
use crate::halt::Halt;
use model::{GRANT, Held, TAKE, Vertex};

impl Plan<'_> {
    // `p` takes along its path, vertex by vertex, until it has what is `held`.
    fn take_along(
        &mut self,
        p: Vertex,
        path: &[Vertex],
        held: Held,
        out: &mut [u8],
    ) -> Result<(), Halt>
        ensures goes { Does (λ b. taking_along p p path.now held.right held.to) self.old out.old result self.new out.new }
    {
        let mut at = p;
        'path: for next in path {
            if self.graph.has(p, held.right, held.to) {
                break 'path;
            }
            let step = Held {
                right: TAKE,
                to: *next,
            };
            self.take_unless_held(p, at, step, out)?;
            at = *next;
        }
        self.take_unless_held(p, at, held, out)
    }

    // Along its shortest path to `y`.
    pub(super) fn take_to(
        &mut self,
        p: Vertex,
        y: Vertex,
        held: Held,
        out: &mut [u8],
    ) -> Result<(), Halt>
        ensures goes { Does (λ b. taking_to b p y held.right held.to) self.old out.old result self.new out.new }
    {
        if p == y {
            return self.take_unless_held(p, p, held, out);
        }
        let path = self.routes.path(p, y);
        self.take_along(p, path.vertices(), held, out)
    }

    // `p`, who has what is `held`, takes its path to `u`, for the right to grant to `into`, and grants it.
    pub(super) fn give(
        &mut self,
        p: Vertex,
        u: Vertex,
        into: Vertex,
        held: Held,
        out: &mut [u8],
    ) -> Result<(), Halt>
        ensures goes { Does (λ b. given b p u into held.right held.to) self.old out.old result self.new out.new }
    {
        let to_grant = Held {
            right: GRANT,
            to: into,
        };
        self.take_to(p, u, to_grant, out)?;
        self.grant(p, into, held, out)
    }
}
