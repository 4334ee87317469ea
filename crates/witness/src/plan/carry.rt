// The whole way of a right: from who has it, over a row of bridges, to who is to have it.
ghost use Rattle.model.specs.Exact.{carried, handed_to, over_row};
ghost use Rattle.witness.specs.Plans.{Does};

use super::Plan;
use crate::ends::Ends;
use crate::halt::Halt;
use model::{Held, Question, Vertex};

impl Plan<'_> {
    // Over a row of bridges, from `p` on.
    fn over_row(
        &mut self,
        p: Vertex,
        row: &[Vertex],
        held: Held,
        out: &mut [u8],
    ) -> Result<(), Halt>
        ensures goes { Does (λ b. over_row b p row.now held.right held.to) self.old out.old result self.new out.new }
    {
        let mut at = p;
        for next in row {
            self.over_bridge(at, *next, held, out)?;
            at = *next;
        }
        Ok(())
    }

    // `p` takes its path to the lowest that has grant to `x`, and grants, unless it is `x`.
    fn hand_to(&mut self, p: Vertex, x: Vertex, held: Held, out: &mut [u8]) -> Result<(), Halt>
        ensures goes { Does (λ b. handed_to b p x held.right held.to) self.old out.old result self.new out.new }
    {
        if p == x {
            return Ok(());
        }
        let u = self.routes.last_holder(p, x);
        self.give(p, u, x, held, out)
    }

    // The right that is asked about comes to who is asked about.
    pub(crate) fn carry(
        &mut self,
        ends: Ends,
        question: Question,
        out: &mut [u8],
    ) -> Result<(), Halt>
        ensures goes { Does (λ b. carried b question.holder question.right question.target ends.holder ends.last ends.first) self.old out.old result self.new out.new }
    {
        let held = Held {
            right: question.right,
            to: question.target,
        };
        self.take_to(ends.last, ends.holder, held, out)?;
        let row = self.routes.row(ends.last, ends.first);
        self.over_row(ends.last, row.vertices(), held, out)?;
        self.hand_to(ends.first, question.holder, held, out)
    }
}
