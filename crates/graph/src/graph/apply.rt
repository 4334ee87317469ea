// Rules applied to a graph.
ghost use Rattle.std.specs.Prelude.{◌≡◌, ℕ, ◌+◌, ◌*◌, ◌<◌, ◌≤◌, Bool, true, false, not, ◌&&◌, ◌||◌, T, if◌then◌else◌};
ghost use Rattle.std.specs.Result.{is_ok};
ghost use Rattle.graph.specs.Graphs.{state, answer, entitled, gifted, grown};
ghost use Rattle.model.specs.Rules.{applied};

use super::{Graph, MOST};
use crate::refusal::Refusal;
use bits::has_bit;
use model::{Create, GRANT, RIGHTS, Rule, TAKE, Vertex};

impl Graph {
    // Applies a rule, or refuses it and changes nothing.
    pub fn apply(&mut self, rule: Rule) -> Result<(), Refusal>
        ensures value { result ≡ answer (state self.old) rule }
        ensures after { state self.new ≡ (if is_ok result then applied (state self.old) rule else state self.old) }
        ensures same { is_ok result ≡ false → self.new ≡ self.old }
    {
        if !self.is_entitled(rule) {
            return Err(Refusal::NotApplicable);
        }
        match rule {
            Rule::Take(t) => self.add(t.who, t.right, t.to),
            Rule::Grant(g) => self.add(g.into, g.right, g.to),
            Rule::Create(c) => return self.create(c),
            Rule::Remove(d) => self.withdraw(d.who, d.right, d.to),
        }
        Ok(())
    }

    // Who acts and what is held is there: so this asks only for a subject, the rights that a rule uses, and the target of a removal.
    fn is_entitled(&self, rule: Rule) -> bool
        ensures value { result ≡ entitled (state self.now) rule }
    {
        match rule {
            Rule::Take(t) => {
                self.is_subject(t.who)
                    && self.has(t.who, TAKE, t.from)
                    && self.has(t.from, t.right, t.to)
            }
            Rule::Grant(g) => {
                self.is_subject(g.who)
                    && self.has(g.who, GRANT, g.into)
                    && self.has(g.who, g.right, g.to)
            }
            Rule::Create(c) => self.is_subject(c.who),
            Rule::Remove(d) => self.is_subject(d.who) && d.to < self.size(),
        }
    }

    fn create(&mut self, c: Create) -> Result<(), Refusal>
        requires { true ≡ entitled (state self.old) (Rule.Create c) }
        ensures value { result ≡ answer (state self.old) (Rule.Create c) }
        ensures after { state self.new ≡ (if is_ok result then applied (state self.old) (Rule.Create c) else state self.old) }
        ensures same { is_ok result ≡ false → self.new ≡ self.old }
    {
        let new = self.size();
        if new == MOST {
            return Err(Refusal::Full);
        }
        self.grow(c.subject);
        self.give_all(c.who, c.rights, new);
        Ok(())
    }

    // A vertex more, which has no right and to which nobody has one.
    fn grow(&mut self, subject: bool)
        requires { (state self.old).size < 255 }
        ensures after { state self.new ≡ grown subject (state self.old) }
    {
        let new = self.size;
        self.size = new + 1;
        if subject {
            self.subjects.insert(new);
        }
    }

    // `p` has each of these rights to `q` from now on.
    fn give_all(&mut self, p: Vertex, rights: u8, q: Vertex)
        requires { (p < (state self.old).size) × (q < (state self.old).size) }
        ensures after { state self.new ≡ gifted p rights q 8 (state self.old) }
    {
        for r in 0..RIGHTS {
            if has_bit(rights, r) {
                self.add(p, r, q);
            }
        }
    }
}
