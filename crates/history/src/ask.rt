// The answers to all questions of an input.
ghost use Rattle.std.specs.Prelude.{MatchResult};
ghost use Rattle.answers.specs.AskErrors.{IsRefusedSo};
ghost use Rattle.history.specs.Posed.{posed};
ghost use Rattle.history.specs.Promised.{Promised, PromisedWith};

use crate::reading::Reading;
use answers::{Answers, line};
use changing::{ChangingGraph, WORDS};
use codec::{InputError, NARROW};
use std::alloc::Global;
use witness::{Routes, longest_answer};

// A line, yes or no, for each question of the input.
pub fn answer_lines(heap: Global, bytes: &[u8]) -> Result<Vec<u8>, InputError>
    ensures { MatchResult result (λ v. Promised bytes.now v.items) (λ e. IsRefusedSo e (posed bytes.now)) }
{
    // These lines stand in both calls, since the words are lent and live here.
    let (graph, mut reading) = Reading::of(bytes)?;
    let mut words = [0; WORDS];
    let mut book = ChangingGraph::of(graph, &mut words);
    let mut lines = Vec::new(heap);
    while let Some(question) = reading.next_question(&mut book)? {
        lines.extend_from_slice(line(book.can_share(question)))?;
    }
    Ok(lines)
}

// The lines, and for each question what shows its answer. One room serves all plans: the longest that there may be.
pub fn answer_records(heap: Global, bytes: &[u8]) -> Result<Answers, InputError>
    ensures { MatchResult result (λ a. PromisedWith bytes.now a.lines.items a.records.items) (λ e. IsRefusedSo e (posed bytes.now)) }
{
    let (graph, mut reading) = Reading::of(bytes)?;
    let mut words = [0; WORDS];
    let mut book = ChangingGraph::of(graph, &mut words);
    let mut room = vec![in heap; 0; longest_answer(NARROW)]?;
    let mut answers = Answers::new(heap);
    while let Some(question) = reading.next_question(&mut book)? {
        answers.add(&Routes::of(book.graph()), question, &mut room)?;
    }
    Ok(answers)
}
