// The acts and questions of an input, read one after the other.
ghost use Rattle.std.specs.Prelude.{◌≡◌, ◌≢◌, ◌<◌, ◌≤◌, [], length, IfOk, IfSome, Ok, Err, MatchOption, MatchResult, slice_index};
ghost use Rattle.changing.specs.Of.{tracked};
ghost use Rattle.codec.specs.Reads.{Reads};
ghost use Rattle.graph.specs.Graphs.{state};
ghost use Rattle.history.specs.Left.{ahead, first, left};
ghost use Rattle.history.specs.Posed.{posed, posed_question_at};

use super::Reading;
use changing::ChangingGraph;
use codec::{Fault, Kind, NARROW, Reader, apply_act, read_narrow_book};
use graph::Graph;
use model::Question;

// The question that comes next, about a book of so many vertices.
fn read_posed(input: &mut Reader, size: u8) -> Result<Question, Fault>
    ensures value { Reads result input.old input.new (λ bs at. posed_question_at bs at size) }
    ensures bound { IfOk result (λ _. (input.old.at < input.new.at) × (size ≤ 128)) }
{
    if size > NARROW {
        return Err(Fault::OutOfRange { at: input.at() });
    }
    input.question(size)
}

impl Reading<'_> {
    // The book, and the input at the first act or question.
    pub fn of(bytes: &[u8]) -> Result<(Graph, Reading<'_>), Fault>
        ensures { MatchResult result (λ b. left b.1 (state b.0) ≡ posed bytes.now) (λ f. posed bytes.now ≡ Err f) }
    {
        let (graph, input) = read_narrow_book(bytes)?;
        Ok((graph, Reading { input, acts: 0 }))
    }

    // Does the acts up to the next question, or up to the end of the input.
    pub fn next_question(&mut self, book: &mut ChangingGraph) -> Result<Option<Question>, Fault>
        ensures value { MatchResult result
            (λ o. MatchOption o
            (left self.old (tracked book.old) ≡ Ok [])
            (λ q. left self.old (tracked book.old) ≡ first (record { about = tracked book.new; question = q }) (left self.new (tracked book.new))))
            (λ f. left self.old (tracked book.old) ≡ Err f) }
        ensures few { IfOk result (λ o. IfSome o (λ _. (tracked book.new).size ≤ 128)) }
        ensures less { IfOk result (λ o. IfSome o (λ _. ahead self.new < ahead self.old)) }
    {
        while !self.input.is_done() {
            if self.input.next_is(Kind::Question) {
                return Ok(Some(self.question(book)?));
            }
            self.act(book)?;
        }
        Ok(None)
    }

    // The question that comes next, of the book as it is now.
    fn question(&mut self, book: &ChangingGraph) -> Result<Question, Fault>
        requires there { self.old.input.at < length self.old.input.bytes.now }
        requires asks { slice_index self.old.input.bytes.now self.old.input.at ≡ 6 }
        ensures value { MatchResult result
            (λ q. left self.old (tracked book.now) ≡ first (record { about = tracked book.now; question = q }) (left self.new (tracked book.now)))
            (λ f. left self.old (tracked book.now) ≡ Err f) }
        ensures few { IfOk result (λ _. (tracked book.now).size ≤ 128) }
        ensures less { IfOk result (λ _. ahead self.new < ahead self.old) }
    {
        // Read on by a copy: of the place after a fault nothing is said, and the ghost fields speak of it.
        let mut input = self.input;
        let question = read_posed(&mut input, book.graph().size())?;
        self.input = input;
        Ok(question)
    }

    // Does the act that comes next.
    fn act(&mut self, book: &mut ChangingGraph) -> Result<(), Fault>
        requires there { self.old.input.at < length self.old.input.bytes.now }
        requires acts { slice_index self.old.input.bytes.now self.old.input.at ≢ 6 }
        ensures value { MatchResult result (λ _. left self.old (tracked book.old) ≡ left self.new (tracked book.new)) (λ f. left self.old (tracked book.old) ≡ Err f) }
        ensures less { IfOk result (λ _. ahead self.new < ahead self.old) }
    {
        let mut input = self.input;
        apply_act(&mut input, self.acts, book)?;
        self.input = input;
        // Counted by hand: questions stand among the acts, so no walk has their numbers.
        self.acts += 1;
        Ok(())
    }
}
