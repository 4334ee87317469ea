// Yes or no to each question.
ghost use Rattle.std.specs.Prelude.{◌≡◌, ℕ, ◌+◌, ◌<◌, ◌≤◌, List, length, IfOk, Ok, MatchResult};
ghost use Rattle.answers.specs.AskErrors.{IsRefusedSo};
ghost use Rattle.answers.specs.Asked.{asked};
ghost use Rattle.answers.specs.Lines.{lines_of, answer_to, line_of};
ghost use Rattle.answers.specs.Promised.{Promised};
ghost use Rattle.codec.specs.Writing.{Appended};
ghost use Rattle.graph.specs.Graphs.{state};
ghost use Rattle.sharing.specs.Of.{answered};

use crate::read::Asked;
use crate::shared::with_sharing;
use codec::InputError;
use graph::Graph;
use model::Question;
use sharing::Sharing;
use std::alloc::{AllocError, Global};

// A line, yes or no, for each question of the input.
pub fn answer_lines(heap: Global, bytes: &[u8]) -> Result<Vec<u8>, InputError>
    ensures { MatchResult result (λ v. Promised bytes.now v.items) (λ e. IsRefusedSo e (asked bytes.now)) }
{
    let asked = Asked::read(heap, bytes)?;
    Ok(write_lines(heap, &asked.about, &asked.questions)?)
}

// The lines, from all answers worked out at once.
fn write_lines(heap: Global, graph: &Graph, questions: &[Question]) -> Result<Vec<u8>, AllocError>
    ensures { IfOk result (λ v. v.items ≡ lines_of (state graph.now) questions.now) }
{
    with_sharing(heap, graph, |sharing| lines(heap, sharing, questions))
}

fn lines(heap: Global, sharing: &Sharing, questions: &[Question]) -> Result<Vec<u8>, AllocError>
    ensures { IfOk result (λ v. v.items ≡ lines_of (answered sharing.now) questions.now) }
{
    let mut out = Vec::new(heap);
    for q in questions {
        out.extend_from_slice(line(sharing.can_share(*q)))?;
    }
    Ok(out)
}

// The line of an answer.
pub fn line(yes: bool) -> &'static [u8]
    ensures { result.now ≡ line_of yes }
{
    if yes { b"yes\n" } else { b"no\n" }
}
