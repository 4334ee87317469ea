// book: reads a book and acts, and prints the book after them, or the first fault.
#![tactic(auto)]

ghost use Rattle.std.specs.Prelude.{IsErr, OnErr};

use anyhow::anyhow;
use codec::{InputError, replay};
use console::Request;

const HELP: &str = "\
book prints a book of rights after a row of acts, or tells the first act that may not be done.

usage: book [FILE]...

The files, one after the other, or standard input where none is named, hold a book and then
acts to the end, in bytes. The book after them is printed, in bytes. A fault is told as a line
with its number and its place, and the exit status is 1.

example: book chamber.book day.acts > chamber.new
";

fn main(rt: HostRuntime) -> anyhow::Result<()> {
    run(&rt)
}

fn run(rt: &HostRuntime) -> anyhow::Result<()> {
    match console::read_request(rt)? {
        Request::Help => Ok(rt.print(HELP)?),
        Request::Run { files, .. } => print_after(rt, &files),
    }
}

fn print_after(rt: &HostRuntime, files: &[String]) -> anyhow::Result<()> {
    let input = console::read_input(rt, files)?;
    print_answer(rt, replay(rt.alloc(), &input))
}

// Where there is no book, the program ends with an error. That an error of the input is told so stands in `could` too: console, which both stand on,
// knows nothing of inputs.
fn print_answer(rt: &HostRuntime, answer: Result<Vec<u8>, InputError>) -> anyhow::Result<()>
    ensures { OnErr answer (IsErr result) }
{
    match answer {
        Ok(book) => Ok(rt.stdout().write_all(&book)?),
        Err(InputError::Input(fault)) => console::tell(rt, fault.number(), fault.place(), fault),
        Err(InputError::NoMemory) => Err(anyhow!("there is not enough memory")),
    }
}
