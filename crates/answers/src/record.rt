// The answers as bytes: for each yes a plan, for each no a sheet.
ghost use Rattle.std.specs.Prelude.{◌≡◌, ℕ, ◌≤◌, [], ◌++◌, length, IfOk, MatchResult};
ghost use Rattle.answers.specs.AskErrors.{IsRefusedSo};
ghost use Rattle.answers.specs.Asked.{asked};
ghost use Rattle.answers.specs.Lines.{answer_to, line_of, lines_of};
ghost use Rattle.answers.specs.Records.{PromisedWith, no_bytes, record_of, records_of};
ghost use Rattle.bits.specs.Sets.{holds};
ghost use Rattle.codec.specs.Writing.{Appended};
ghost use Rattle.graph.specs.Graphs.{state};
ghost use Rattle.witness.specs.Answers.{longest_answer_len};
ghost use Rattle.witness.specs.Of.{routed};

use crate::ask::line;
use crate::read::Asked;
use codec::{InputError, Kind};
use graph::Graph;
use model::Question;
use spans::Barrier;
use std::alloc::{AllocError, Global};
use witness::{Routes, Unwritten, longest_answer};

// What is printed, and what is written beside it.
#[derive(Drop)]
pub struct Answers {
    // A line, yes or no, for each question.
    pub lines: Vec<u8>,
    // For each question a plan or a sheet, one after the other.
    pub records: Vec<u8>,
}

// Yes or no to each question of the input, with what shows it.
pub fn answer_records(heap: Global, bytes: &[u8]) -> Result<Answers, InputError>
    ensures { MatchResult result (λ a. PromisedWith bytes.now a.lines.items a.records.items) (λ e. IsRefusedSo e (asked bytes.now)) }
{
    let asked = Asked::read(heap, bytes)?;
    Ok(write_answers(heap, &asked.about, &asked.questions)?)
}

// One room serves all plans: the longest that there may be.
// Clauses say `size ≤ 128`, since a graph may have 255 vertices: a type of narrow graphs would be taken apart by each of these, which all call what takes a
// graph.
fn write_answers(heap: Global, graph: &Graph, questions: &[Question]) -> Result<Answers, AllocError>
    requires { (state graph.now).size ≤ 128 }
    ensures { IfOk result (λ a. (a.lines.items ≡ lines_of (state graph.now) questions.now) × (a.records.items ≡ records_of (state graph.now) questions.now)) }
{
    let mut room = vec![in heap; 0; longest_answer(graph.size())]?;
    answer_all(heap, &Routes::of(graph), questions, &mut room)
}

fn answer_all(
    heap: Global,
    routes: &Routes,
    questions: &[Question],
    room: &mut [u8],
) -> Result<Answers, AllocError>
    requires few { (routed routes.now).size ≤ 128 }
    requires room { longest_answer_len (routed routes.now).size ≤ length room.old }
    ensures { IfOk result (λ a. (a.lines.items ≡ lines_of (routed routes.now) questions.now) × (a.records.items ≡ records_of (routed routes.now) questions.now)) }
{
    let mut answers = Answers::new(heap);
    for question in questions {
        answers.add(routes, *question, room)?;
    }
    Ok(answers)
}

impl Answers {
    // To no question yet.
    pub fn new(heap: Global) -> Answers
        ensures lines { result.lines.items ≡ [] }
        ensures records { result.records.items ≡ [] }
    {
        Answers {
            lines: Vec::new(heap),
            records: Vec::new(heap),
        }
    }

    // One question more. `room` is where its plan is written first.
    pub fn add(
        &mut self,
        routes: &Routes,
        question: Question,
        room: &mut [u8],
    ) -> Result<(), AllocError>
        requires few { (routed routes.now).size ≤ 128 }
        requires room { longest_answer_len (routed routes.now).size ≤ length room.old }
        ensures lines { Appended result self.old.lines.items self.new.lines.items (line_of (answer_to (routed routes.now) question)) }
        ensures records { Appended result self.old.records.items self.new.records.items (record_of (routed routes.now) question) }
    {
        match routes.write_witness(question, room) {
            Ok(n) => {
                self.lines.extend_from_slice(line(true))?;
                self.records.extend_from_slice(&room[..n])
            }
            Err(Unwritten::Never(barrier)) => {
                self.lines.extend_from_slice(line(false))?;
                write_sheet(&barrier, &mut self.records)
            }
            Err(Unwritten::NoRoom) => unreachable(),
        }
    }
}

// The sheet of a no.
fn write_sheet(barrier: &Barrier, out: &mut Vec<u8>) -> Result<(), AllocError>
    ensures { Appended result out.old.items out.new.items (no_bytes (record { inner = holds barrier.now.inner; out = holds barrier.now.out; into = holds barrier.now.into })) }
{
    out.extend_from_slice(&[u8::from(Kind::No)])?;
    out.extend_from_slice(&barrier.inner.to_be_bytes())?;
    out.extend_from_slice(&barrier.into.to_be_bytes())?;
    out.extend_from_slice(&barrier.out.to_be_bytes())
}
