// How many could have each right to each vertex.
ghost use Rattle.std.specs.Prelude.{◌≡◌, ℕ, ◌<◌, IfOk, Ok, string_bytes, MatchResult};
ghost use Rattle.answers.specs.AskErrors.{IsRefusedSo};
ghost use Rattle.answers.specs.Asked.{book_alone};
ghost use Rattle.answers.specs.Lines.{count_of, counts_of, table_of};
ghost use Rattle.codec.specs.Writing.{Appended};
ghost use Rattle.graph.specs.Graphs.{state};
ghost use Rattle.model.specs.State.{State};
ghost use Rattle.sharing.specs.Of.{answered};

use crate::shared::with_sharing;
use codec::{Fault, InputError, read_narrow_book};
use graph::Graph;
use model::{RIGHTS, Vertex};
use sharing::Sharing;
use std::alloc::{AllocError, Global};

// A line for each vertex of the input's book: how many could have each of the eight rights to it.
pub fn sharing_table(heap: Global, bytes: &[u8]) -> Result<String, InputError>
    ensures { MatchResult result (λ t. (s : State) × (book_alone bytes.now ≡ Ok s) × (string_bytes t ≡ table_of s s.size)) (λ e. IsRefusedSo e (book_alone bytes.now)) }
{
    let (graph, rest) = read_narrow_book(bytes)?;
    if !rest.is_done() {
        return Err(InputError::Input(Fault::UnknownKind { at: rest.at() }));
    }
    Ok(write_table(heap, &graph)?)
}

fn write_table(heap: Global, graph: &Graph) -> Result<String, AllocError>
    ensures { IfOk result (λ t. string_bytes t ≡ table_of (state graph.now) (state graph.now).size) }
{
    with_sharing(heap, graph, |sharing| table(heap, sharing, graph.size()))
}

// The lines of so many vertices.
fn table(heap: Global, sharing: &Sharing, size: u8) -> Result<String, AllocError>
    ensures { IfOk result (λ t. string_bytes t ≡ table_of (answered sharing.now) size) }
{
    let mut text = String::new(heap);
    for y in 0..size {
        write_counts(sharing, y, &mut text)?;
    }
    Ok(text)
}

// The eight counts of a vertex.
fn write_counts(sharing: &Sharing, y: Vertex, text: &mut String) -> Result<(), AllocError>
    ensures { Appended result (string_bytes text.old) (string_bytes text.new) (counts_of (answered sharing.now) y 8) }
{
    for r in 0..RIGHTS {
        write_count(sharing.count(r, y), r == RIGHTS - 1, text)?;
    }
    Ok(())
}

// `last` of its line, which then ends: a bool, since it is asked for once and says no more.
fn write_count(n: usize, last: bool, text: &mut String) -> Result<(), AllocError>
    ensures { Appended result (string_bytes text.old) (string_bytes text.new) (count_of n last) }
{
    if last {
        writeln!(text, "{n}")
    } else {
        write!(text, "{n} ")
    }
}
