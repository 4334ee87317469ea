// check: reads a book, a question and an answer, and prints `right`, or the first fault.
#![tactic(auto)]

ghost use Rattle.std.specs.Prelude.{IsErr, OnErr};

use checker::{CheckFault, check};
use console::Request;

const HELP: &str = "\
check tells whether an answer about a book of rights is right, whoever wrote it.

usage: check [FILE]...

The files, one after the other, or standard input where none is named, hold a book, a question
and its answer, in bytes. The answer is a plan, acts after which the right has come about, or a
sheet, which shows that it never does. A right answer prints `right`. A fault is told as a line
with its number and its place, and the exit status is 1.

example: check chamber.book one.question one.answer
";

fn main(rt: HostRuntime) -> anyhow::Result<()> {
    run(&rt)
}

// As in `book`: what a program does with its request is its own, and the console knows no program.
fn run(rt: &HostRuntime) -> anyhow::Result<()> {
    match console::read_request(rt)? {
        Request::Help => Ok(rt.print(HELP)?),
        Request::Run { files, .. } => print_verdict(rt, &files),
    }
}

fn print_verdict(rt: &HostRuntime, files: &[String]) -> anyhow::Result<()> {
    let input = console::read_input(rt, files)?;
    print_answer(rt, check(&input))
}

// Where the answer isn't right, the program ends with an error.
fn print_answer(rt: &HostRuntime, answer: Result<(), CheckFault>) -> anyhow::Result<()>
    ensures { OnErr answer (IsErr result) }
{
    match answer {
        Ok(()) => Ok(rt.println("right")?),
        Err(fault) => console::tell(rt, fault.number(), fault.place(), fault),
    }
}
