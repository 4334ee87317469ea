// One act of a plan: applied to its graph, and written behind the acts before it.
ghost use Rattle.std.specs.Prelude.{List, ℕ, []};
ghost use Rattle.model.specs.Exact.{creating, doing, granting, taking_unless_held};
ghost use Rattle.witness.specs.Of.{routed};
ghost use Rattle.witness.specs.Plans.{At, Does};

use super::Plan;
use crate::halt::Halt;
use crate::routes::Routes;
use crate::write::write_act;
use model::{Create, Grant, Held, Rule, Take, Vertex};

// Take and grant, to a new object.
const BOTH: u8 = 3;

impl<'a> Plan<'a> {
    // A plan of no act.
    pub(crate) fn of(routes: &'a Routes<'a>) -> Plan<'a>
        ensures { (was : List ℕ) → At (routed routes.now) (record { state = routed routes.now; rules = [] }) result was was }
    {
        Plan {
            routes,
            graph: routes.graph.copy(),
            used: 0,
            acts: 0,
        }
    }

    fn act(&mut self, rule: Rule, out: &mut [u8]) -> Result<(), Halt>
        ensures goes { Does (λ b. doing rule) self.old out.old result self.new out.new }
    {
        let at = self.used;
        if at > out.len() {
            return Err(Halt::NoSpace);
        }
        let count = write_act(rule, &mut out[at..])?;
        self.graph.apply(rule)?;
        self.used = at + count;
        self.acts += 1;
        Ok(())
    }

    // `p` takes what is `held` from `y`, unless it has it.
    pub(super) fn take_unless_held(
        &mut self,
        p: Vertex,
        y: Vertex,
        held: Held,
        out: &mut [u8],
    ) -> Result<(), Halt>
        ensures goes { Does (λ b. taking_unless_held p y held.right held.to) self.old out.old result self.new out.new }
    {
        if self.graph.has(p, held.right, held.to) {
            return Ok(());
        }
        let take = Take {
            who: p,
            from: y,
            right: held.right,
            to: held.to,
        };
        self.act(Rule::Take(take), out)
    }

    pub(super) fn grant(
        &mut self,
        p: Vertex,
        into: Vertex,
        held: Held,
        out: &mut [u8],
    ) -> Result<(), Halt>
        ensures goes { Does (λ b. doing (granting p into held.right held.to)) self.old out.old result self.new out.new }
    {
        let grant = Grant {
            who: p,
            into,
            right: held.right,
            to: held.to,
        };
        self.act(Rule::Grant(grant), out)
    }

    // `p` creates an object to which it has take and grant.
    pub(super) fn create(&mut self, p: Vertex, out: &mut [u8]) -> Result<(), Halt>
        ensures goes { Does (λ b. doing (creating p)) self.old out.old result self.new out.new }
    {
        let create = Create {
            who: p,
            subject: false,
            rights: BOTH,
        };
        self.act(Rule::Create(create), out)
    }
}
