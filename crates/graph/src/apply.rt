// What rules are applied to.
ghost use Rattle.std.specs.Prelude.{◌≡◌, if◌then◌else◌};
ghost use Rattle.std.specs.Result.{is_ok};
ghost use Rattle.graph.specs.Graphs.{answer, state};
ghost use Rattle.model.specs.Rules.{applied};
ghost use Rattle.model.specs.State.{State};

use crate::graph::Graph;
use crate::refusal::Refusal;
use model::Rule;

// A graph that changes: a `Graph` alone, or one with what was worked out of it.
pub trait Apply {
    ghost stands_for: { Self → State };

    fn size(&self) -> u8
        ensures { result ≡ (stands_for self.now).size };

    // Applies a rule, or refuses it and changes nothing.
    fn apply(&mut self, rule: Rule) -> Result<(), Refusal>
        ensures value { result ≡ answer (stands_for self.old) rule }
        ensures after { stands_for self.new ≡ (if is_ok result then applied (stands_for self.old) rule else stands_for self.old) };
}

impl Apply for Graph {
    ghost stands_for = { state };

    fn size(&self) -> u8 {
        Graph::size(self)
    }

    fn apply(&mut self, rule: Rule) -> Result<(), Refusal> {
        Graph::apply(self, rule)
    }
}
