// Rules applied to the graph and to its rows.
ghost use Rattle.std.specs.Prelude.{◌≡◌, ℕ, false, ◌&&◌, if◌then◌else◌, Ok, Err, IfOk, MatchResult};
ghost use Rattle.std.specs.Result.{is_ok};
ghost use Rattle.bits.specs.Sets.{holds};
ghost use Rattle.changing.specs.Of.{Untouched, kept_row, tracked};
ghost use Rattle.changing.specs.Renewed.{changes_take, renews};
ghost use Rattle.graph.specs.Graphs.{answer, state};
ghost use Rattle.model.specs.Changes.{changed};
ghost use Rattle.model.specs.Rules.{applied};
ghost use Rattle.spans.specs.Paths.{path_from};

use super::ChangingGraph;
use crate::rows::{Rows, WORDS};
use bits::{VertexSet, has_bit};
use graph::{Apply, Graph, Refusal};
use model::{Rule, TAKE, Vertex};

// Whose rights the rule changes.
fn holder(rule: Rule) -> Vertex
    ensures { result ≡ changed rule }
{
    match rule {
        Rule::Take(t) => t.who,
        Rule::Grant(g) => g.into,
        Rule::Create(c) => c.who,
        Rule::Remove(d) => d.who,
    }
}

impl<'a> ChangingGraph<'a> {
    // Works out all rows, in words that are lent, whatever these had. What is left in them once the value is gone is not said: the checker knows a `&mut`
    // by its name, and an array that becomes a slice gets another.
    pub fn of(graph: Graph, words: &'a mut [u64; WORDS]) -> ChangingGraph<'a>
        ensures value { tracked result ≡ state graph }
    {
        let rows = Rows::of(&graph, words);
        ChangingGraph { graph, rows }
    }

    // From where take paths lead to v.
    fn leading_to(&self, v: Vertex) -> VertexSet
        ensures value { (k : ℕ) → holds result k ≡ path_from (tracked self.now) k v }
    {
        self.rows.holding(self.graph.size(), v)
    }

    // Does the rule, if it is applied, change a take right?
    fn changes_take(&self, rule: Rule) -> bool
        ensures value { result ≡ changes_take (tracked self.now) rule }
    {
        match rule {
            Rule::Take(t) => t.right == TAKE && !self.graph.has(t.who, TAKE, t.to),
            Rule::Grant(g) => g.right == TAKE && !self.graph.has(g.into, TAKE, g.to),
            Rule::Create(c) => has_bit(c.rights, TAKE),
            Rule::Remove(d) => d.right == TAKE && self.graph.has(d.who, TAKE, d.to),
        }
    }

    // From where take paths lead to whose take rights the rule, if it is applied, changes.
    fn changed_paths(&self, rule: Rule) -> VertexSet
        ensures value { (v : ℕ) → holds result v ≡ (changes_take (tracked self.now) rule && path_from (tracked self.now) v (changed rule)) }
    {
        if self.changes_take(rule) {
            self.leading_to(holder(rule))
        } else {
            VertexSet::empty()
        }
    }

    // The rows that the rule, if it is applied, has worked out anew.
    fn to_renew(&self, rule: Rule) -> VertexSet
        ensures value { (v : ℕ) → holds result v ≡ renews (tracked self.now) rule v }
    {
        let mut rows = self.changed_paths(rule);
        if let Rule::Create(_) = rule {
            rows.insert(self.graph.size());
        }
        rows
    }

    // Applies a rule, or refuses it and changes nothing. The answer is of the vertices whose rows were worked out anew: no other row is touched.
    pub fn apply(&mut self, rule: Rule) -> Result<VertexSet, Refusal>
        ensures value { MatchResult result (λ _. answer (tracked self.old) rule ≡ Ok tt) (λ refusal. answer (tracked self.old) rule ≡ Err refusal) }
        ensures after { tracked self.new ≡ (if is_ok result then applied (tracked self.old) rule else tracked self.old) }
        ensures renewed { IfOk result (λ rows. (v : ℕ) → holds rows v ≡ renews (tracked self.old) rule v) }
        ensures kept { IfOk result (λ rows. (x y : ℕ) → holds rows x ≡ false → kept_row self.new x y ≡ kept_row self.old x y) }
        ensures same { is_ok result ≡ false → Untouched self.old self.new }
    {
        let renewed = self.to_renew(rule);
        let new = self.graph.size();
        self.graph.apply(rule)?;
        match rule {
            Rule::Take(t) => self.rows.unite_each(renewed, t.to),
            Rule::Grant(g) => self.rows.unite_each(renewed, g.to),
            Rule::Create(_) => {
                self.rows.insert(new, new);
                self.rows.unite_each(renewed, new);
            }
            Rule::Remove(_) => {
                self.rows.begin_each(&self.graph, renewed);
                self.rows.close_each(new, renewed);
            }
        }
        Ok(renewed)
    }
}

impl Apply for ChangingGraph<'_> {
    ghost stands_for = { tracked };

    fn size(&self) -> u8 {
        self.graph().size()
    }

    fn apply(&mut self, rule: Rule) -> Result<(), Refusal> {
        ChangingGraph::apply(self, rule)?;
        Ok(())
    }
}
