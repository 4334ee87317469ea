// The answer yes as bytes: its kind, how many acts its plan has, and the acts.
ghost use Rattle.std.specs.Prelude.{◌≡◌, ◌≤◌, false, length};
ghost use Rattle.graph.specs.Graphs.{state};
ghost use Rattle.witness.specs.Answers.{Answered, AnsweredAs, head_bytes, longest_answer_len, witness_of};
ghost use Rattle.witness.specs.Ends.{Exact};
ghost use Rattle.witness.specs.Of.{routed};
ghost use Rattle.witness.specs.Plans.{Wrote};

use crate::ends::Ends;
use crate::halt::Halt;
use crate::plan::Plan;
use crate::routes::Routes;
use crate::unwritten::Unwritten;
use crate::write::write;
use codec::{Kind, NARROW};
use graph::Graph;
use model::{Question, longest_witness};

// The bytes before the acts: the kind of the answer, and how many acts there are.
const HEAD: usize = 5;

// The most bytes of an act.
const ACT: usize = 5;

// The most bytes of an answer about so many vertices.
pub fn longest_answer(size: u8) -> usize
    ensures { result ≡ longest_answer_len size }
{
    HEAD + ACT * longest_witness(size) as usize
}

fn write_head(acts: usize, out: &mut [u8]) -> Result<usize, Halt>
    ensures { Wrote result (head_bytes acts) out.old out.new }
{
    let [_, _, _, _, a, b, c, d] = acts.to_be_bytes();
    write(&[u8::from(Kind::Yes), a, b, c, d], out)
}

// Writes the answer yes to the question, with its witness, at the start of `out`, and answers with how many bytes it has.
pub fn write_witness(graph: &Graph, question: Question, out: &mut [u8]) -> Result<usize, Halt>
    ensures value { Answered (state graph.now) (witness_of (state graph.now) question) result out.old out.new }
{
    // Told before anything is searched for.
    if out.len() < HEAD {
        return Err(Halt::NoSpace);
    }
    if graph.has(question.holder, question.right, question.target) {
        return write_head(0, out);
    }
    let routes = Routes::of(graph);
    // Where the right never comes about, there are no ends: of the acts that the exact witness is then defined to have, one can't be done.
    let Ok(ends) = Ends::of(&routes, question) else {
        return Err(Halt::Refused);
    };
    routes.write_plan(ends, question, out)
}

impl Routes<'_> {
    // Writes the answer yes to the question, with its witness, at the start of `out`, and answers with how many bytes it has.
    // Else nothing is written.
    pub fn write_witness(&self, question: Question, out: &mut [u8]) -> Result<usize, Unwritten>
        ensures value { AnsweredAs (routed self.now) question result out.old out.new }
    {
        let size = self.graph.size();
        if size > NARROW || out.len() < longest_answer(size) {
            return Err(Unwritten::NoRoom);
        }
        let Question {
            holder,
            right,
            target,
        } = question;
        // There is room for the longest answer, so that neither way of writing one halts.
        if self.graph.has(holder, right, target) {
            return Ok(write_head(0, out).unwrap());
        }
        let ends = Ends::of(self, question)?;
        Ok(self.write_plan(ends, question, out).unwrap())
    }

    // The answer with a plan that goes over these ends, for a right that its holder hasn't.
    fn write_plan(&self, ends: Ends, question: Question, out: &mut [u8]) -> Result<usize, Halt>
        requires lacks { false ≡ (routed self.now).has question.holder question.right question.target }
        requires exact { Exact (routed self.now) question ends }
        requires room { 5 ≤ length out.old }
        ensures { Answered (routed self.now) (witness_of (routed self.now) question) result out.old out.new }
    {
        let mut plan = Plan::of(self);
        plan.carry(ends, question, &mut out[HEAD..])?;
        let head = write_head(plan.acts, out)?;
        Ok(head + plan.used)
    }
}
