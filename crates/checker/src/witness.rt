// Witnesses: rules that are read and applied one after the other.
ghost use Rattle.std.specs.Prelude.{◌≡◌, ◌+◌};
ghost use Rattle.checker.specs.Reading.{rules_at};
ghost use Rattle.codec.specs.Reads.{Reads, filled};
ghost use Rattle.graph.specs.Graphs.{state};

use codec::{Fault, Reader, apply_act};
use graph::Graph;

// Applies so many rules.
#[tactic(auto, unfolding(crate::specs::Reading::rules_at))]
pub fn apply_rules(rules: &mut Reader, count: u32, graph: &mut Graph) -> Result<(), Fault>
    ensures { Reads (filled result (state graph.new)) rules.old rules.new (λ bs at. rules_at count bs at 0 (state graph.old)) }
{
    for i in 0..count {
        apply_act(rules, i as usize, graph)?;
    }
    Ok(())
}
