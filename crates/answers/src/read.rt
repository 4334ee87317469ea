// A book and what is asked about it, read from an input.
ghost use Rattle.std.specs.Prelude.{◌≡◌, ℕ, ◌<◌, ◌≤◌, length, Ok, MatchResult};
ghost use Rattle.answers.specs.AskErrors.{IsRefusedSo};
ghost use Rattle.answers.specs.Asked.{asked, questions_at};
ghost use Rattle.answers.specs.Inside.{AllInside};
ghost use Rattle.graph.specs.Graphs.{state};

use codec::{InputError, Reader, read_narrow_book};
use graph::Graph;
use model::Question;
use std::alloc::Global;

#[derive(Drop)]
pub struct Asked {
    pub about: Graph,
    pub questions: Vec<Question>,
}

impl Asked {
    // The questions name only vertices of the book.
    pub fn read(heap: Global, bytes: &[u8]) -> Result<Asked, InputError>
        ensures { MatchResult result
            (λ a. (asked bytes.now ≡ Ok (record { about = state a.about; questions = a.questions.items })) × ((state a.about).size ≤ 128) × AllInside (state a.about).size a.questions.items)
            (λ e. IsRefusedSo e (asked bytes.now)) }
    {
        let (about, mut rest) = read_narrow_book(bytes)?;
        let questions = read_questions(heap, &mut rest, about.size())?;
        Ok(Asked { about, questions })
    }
}

// Questions to the end of the input, about a book of so many vertices.
fn read_questions(heap: Global, input: &mut Reader, size: u8) -> Result<Vec<Question>, InputError>
    ensures { MatchResult result
        (λ v. questions_at (length input.old.bytes.now) input.old.bytes.now size input.old.at ≡ Ok v.items)
        (λ e. IsRefusedSo e (questions_at (length input.old.bytes.now) input.old.bytes.now size input.old.at)) }
{
    let mut questions = Vec::new(heap);
    while !input.is_done() {
        let question = input.question(size)?;
        questions.push(question)?;
    }
    Ok(questions)
}
