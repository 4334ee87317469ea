// Over one bridge: `p`, who has what is `held`, brings it to `q`.
ghost use Rattle.model.specs.Exact.{asked, left, over_bridge, passed, taking_unless_held};
ghost use Rattle.witness.specs.Plans.{Does, given};

use super::Plan;
use crate::halt::Halt;
use model::{GRANT, Held, Vertex};

impl Plan<'_> {
    // `p` takes its path to `u`, for the right to grant to the object `c`, and grants; `q` takes from the object.
    fn leave_at(
        &mut self,
        p: Vertex,
        u: Vertex,
        c: Vertex,
        q: Vertex,
        held: Held,
        out: &mut [u8],
    ) -> Result<(), Halt>
        ensures goes { Does (λ b w. taking_unless_held q c held.right held.to (given b p u c held.right held.to w)) self.old out.old result self.new out.new }
    {
        self.give(p, u, c, held, out)?;
        self.take_unless_held(q, c, held, out)
    }

    // `q` creates an object; `p`, whose path leads to `q`, leaves the right there.
    fn leave(&mut self, p: Vertex, q: Vertex, held: Held, out: &mut [u8]) -> Result<(), Halt>
        ensures goes { Does (λ b w. left b p q held.right held.to w.state.size w) self.old out.old result self.new out.new }
    {
        let new = self.graph.size();
        self.create(q, out)?;
        self.leave_at(p, q, new, q, held, out)
    }

    // `p` takes its path to `u`, for the right to grant to `v`, and grants; `q` takes its path to `v`.
    fn pass(
        &mut self,
        p: Vertex,
        q: Vertex,
        u: Vertex,
        v: Vertex,
        held: Held,
        out: &mut [u8],
    ) -> Result<(), Halt>
        ensures goes { Does (λ b. passed b p q held.right held.to u v) self.old out.old result self.new out.new }
    {
        self.give(p, u, v, held, out)?;
        self.take_to(q, v, held, out)
    }

    // `q` creates an object, takes its path to `v`, for the right to grant to `u`, and grants `u` the right to grant to the object;
    // `p`, whose path leads to `u`, leaves the right there.
    fn ask(
        &mut self,
        p: Vertex,
        q: Vertex,
        u: Vertex,
        v: Vertex,
        held: Held,
        out: &mut [u8],
    ) -> Result<(), Halt>
        ensures goes { Does (λ b w. asked b p q held.right held.to u v w.state.size w) self.old out.old result self.new out.new }
    {
        let new = self.graph.size();
        let to_grant = Held {
            right: GRANT,
            to: new,
        };
        self.create(q, out)?;
        self.give(q, v, u, to_grant, out)?;
        self.leave_at(p, u, new, q, held, out)
    }

    pub(super) fn over_bridge(
        &mut self,
        p: Vertex,
        q: Vertex,
        held: Held,
        out: &mut [u8],
    ) -> Result<(), Halt>
        ensures goes { Does (λ b. over_bridge b p q held.right held.to) self.old out.old result self.new out.new }
    {
        let routes = self.routes;
        if routes.leads(q, p) {
            return self.take_to(q, p, held, out);
        }
        if routes.leads(p, q) {
            return self.leave(p, q, held, out);
        }
        let u = routes.near_end(p, q);
        let v = routes.far_end(q, u);
        if routes.grants(u, v) {
            self.pass(p, q, u, v, held, out)
        } else {
            self.ask(p, q, u, v, held, out)
        }
    }
}
