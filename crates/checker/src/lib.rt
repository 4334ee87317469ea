// The checker: is an answer right, whoever wrote it? It reads, looks and applies rules, and finds no paths.
#![tactic(auto)]

mod answer;
mod certificate;
mod fault;
mod witness;

ghost use Rattle.checker.specs.Checked.{checked, answer_checked, certificate_checked, witness_checked};
ghost use Rattle.checker.specs.Right.{RightInput, RightCertificate, NeverHas};
ghost use Rattle.graph.specs.Graphs.{state};
ghost use Rattle.std.specs.Prelude.{◌≡◌, Ok};

use answer::{read_certificate, read_end, read_length};
pub use certificate::{Certificate, Claim};
use codec::{Fault, Kind, Question, Reader, read_narrow_book};
pub use fault::{CheckFault, Place};
use graph::Graph;
use model::longest_witness;
use witness::apply_rules;

// Is the input a book, a question and a right answer to it? What passes is right by the model's definition, all that is right passes, and a right
// certificate shows that the right comes about by no rules, whatever their number. The fault that is told is the first in the order of looking.
pub fn check(bytes: &[u8]) -> Result<(), CheckFault>
    ensures value { result ≡ checked bytes.now }
    ensures sound { result ≡ Ok tt → RightInput bytes.now }
    ensures complete { RightInput bytes.now → result ≡ Ok tt }
    ensures never { (w : RightCertificate bytes.now) → NeverHas w.asked.question w.asked.book }
{
    let (mut graph, mut rest) = read_narrow_book(bytes)?;
    check_answer(&mut rest, &mut graph)
}

// The question about a book that was read, and its answer.
fn check_answer(input: &mut Reader, graph: &mut Graph) -> Result<(), CheckFault>
    ensures { result ≡ answer_checked input.old.bytes.now (state graph.old) input.old.at }
{
    let question = input.question(graph.size())?;
    let at = input.at();
    match input.kind()? {
        Kind::Yes => check_witness(input, question, graph),
        Kind::No => check_certificate(input, question, graph),
        _ => Err(CheckFault::Input(Fault::UnknownKind { at })),
    }
}

// Does the rest of the input show that the right can come about?
fn check_witness(plan: &mut Reader, question: Question, graph: &mut Graph) -> Result<(), CheckFault>
    ensures { result ≡ witness_checked plan.old.bytes.now (state graph.old) question plan.old.at }
{
    let count = read_length(plan)?;
    if count > longest_witness(graph.size()) {
        return Err(CheckFault::TooLong { count });
    }
    apply_rules(plan, count, graph)?;
    read_end(plan)?;
    if graph.has(question.holder, question.right, question.target) {
        Ok(())
    } else {
        Err(CheckFault::NotReached { count })
    }
}

// Does the rest of the input show that the right never comes about?
fn check_certificate(
    sheet: &mut Reader,
    question: Question,
    graph: &Graph,
) -> Result<(), CheckFault>
    ensures { result ≡ certificate_checked sheet.old.bytes.now (state graph.now) question sheet.old.at }
{
    let certificate = read_certificate(sheet, graph.size())?;
    read_end(sheet)?;
    certificate
        .first_fault(graph, &Claim::no(question))
        .map_or(Ok(()), Err)
}
