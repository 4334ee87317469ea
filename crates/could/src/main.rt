// could: reads a book and questions, with acts among them if so asked, and prints yes or no to each, with plans and sheets in a file if one is named;
// or how many could have what.
// The first fault is told instead.
#![tactic(auto)]

ghost use Rattle.could.specs.Asks.{asks_of, files_of};
ghost use Rattle.std.specs.Prelude.{◌≡◌, IsErr, IsSome, OnErr};

use answers::{Answers, InputError, sharing_table};
use anyhow::anyhow;
use console::Request;
use std::alloc::Global;

const HELP: &str = "\
could tells whether somebody could ever come to have a right, by any acts of any people.

usage: could [-o ANSWERS] [FILE]...
       could after [-o ANSWERS] [FILE]...
       could all [FILE]...

The files, one after the other, or standard input where none is named, hold a book and then
questions to the end, in bytes. For each question a line is printed, yes or no. With -o the file
ANSWERS gets what shows it: for each yes a plan, acts that bring the right about, and for each no
a sheet, which the program check accepts.

After `after` acts may stand among the questions: each is done in its turn, and each question is
answered of the book as it is then. After `all` the files hold a book alone: for each of its
things a line is printed, with how many could have right 0, right 1 and so on to it.

A fault is told as a line with its number and its place, ANSWERS isn't written, and the exit
status is 1.

example: could -o some.answers chamber.book some.questions
";

fn main(rt: HostRuntime) -> anyhow::Result<()> {
    run(&rt)
}

fn run(rt: &HostRuntime) -> anyhow::Result<()> {
    let (words, output) = match console::read_writing_request(rt)? {
        Request::Help => return Ok(rt.print(HELP)?),
        Request::Run { files, output } => (files, output),
    };
    let (asks, files) = split(&words);
    match asks {
        Asks::All => count(rt, files, &output),
        Asks::After => answer(
            rt,
            files,
            &output,
            |heap, input| history::answer_lines(heap, input),
            |heap, input| history::answer_records(heap, input),
        ),
        Asks::Once => answer(
            rt,
            files,
            &output,
            |heap, input| answers::answer_lines(heap, input),
            |heap, input| answers::answer_records(heap, input),
        ),
    }
}

// What is asked for.
#[derive(Clone, Copy)]
enum Asks {
    // Answers about the book as it is.
    Once,
    // Answers about the book as it is after the acts before each question.
    After,
    // How many could have what.
    All,
}

// What the first word asks for, if it is none of the files, and the files.
fn split(words: &[String]) -> (Asks, &[String])
    ensures { (result.0 ≡ asks_of words.now) × (result.1.now ≡ files_of words.now) }
{
    match words {
        [first, files @ ..] if first.as_str() == "all" => (Asks::All, files),
        [first, files @ ..] if first.as_str() == "after" => (Asks::After, files),
        files => (Asks::Once, files),
    }
}

// `output` is lent as the request has it: an `Option<&str>` would be made of it only to be taken apart.
// Answers an input by one of two rules: `lines` where only lines are wanted, `records` where what shows them is too.
fn answer<L, R>(
    rt: &HostRuntime,
    files: &[String],
    output: &Option<String>,
    lines: L,
    records: R,
) -> anyhow::Result<()>
where
    L: Fn(Global, &[u8]) -> Result<Vec<u8>, InputError>,
    R: Fn(Global, &[u8]) -> Result<Answers, InputError>,
    requires { (L.IsAlwaysCallable lines) × (R.IsAlwaysCallable records) }
{
    let input = console::read_input(rt, files)?;
    match output {
        Some(file) => print_records(rt, records(rt.alloc(), &input), file),
        None => print_lines(rt, lines(rt.alloc(), &input)),
    }
}

// What is printed differs, and so each of the three prints its own; that a fault is told instead, and the program ends with an error, is one line in each.
fn print_lines(rt: &HostRuntime, answered: Result<Vec<u8>, InputError>) -> anyhow::Result<()>
    ensures { OnErr answered (IsErr result) }
{
    match answered {
        Ok(lines) => Ok(rt.stdout().write_all(&lines)?),
        Err(error) => tell(rt, error),
    }
}

// The file comes first, so that nothing is printed where it can't be written.
fn print_records(
    rt: &HostRuntime,
    answered: Result<Answers, InputError>,
    file: &str,
) -> anyhow::Result<()>
    ensures { OnErr answered (IsErr result) }
{
    match answered {
        Ok(answers) => {
            console::write_output(rt, file, &answers.records)?;
            Ok(rt.stdout().write_all(&answers.lines)?)
        }
        Err(error) => tell(rt, error),
    }
}

fn print_table(rt: &HostRuntime, answered: Result<String, InputError>) -> anyhow::Result<()>
    ensures { OnErr answered (IsErr result) }
{
    match answered {
        Ok(table) => Ok(rt.print(table.as_str())?),
        Err(error) => tell(rt, error),
    }
}

// How many could have what. No file is written.
fn count(rt: &HostRuntime, files: &[String], output: &Option<String>) -> anyhow::Result<()>
    ensures { IsSome output.now → IsErr result }
{
    if output.is_some() {
        return Err(anyhow!(
            "could all has no answers to write; --help says how to use this program"
        ));
    }
    let input = console::read_input(rt, files)?;
    print_table(rt, sharing_table(rt.alloc(), &input))
}

// Also in `book`: console, which both stand on, knows nothing of what is wrong with an input.
fn tell(rt: &HostRuntime, error: InputError) -> anyhow::Result<()>
    ensures { IsErr result }
{
    match error {
        InputError::Input(fault) => console::tell(rt, fault.number(), fault.place(), fault),
        InputError::NoMemory => Err(anyhow!("there is not enough memory")),
    }
}
