// Books written as bytes.
ghost use Rattle.std.specs.Prelude.{◌≡◌, ℕ, ◌+◌, ◌*◌, ◌/◌, ◌%◌, ◌<◌, ◌≤◌, List, [], ◌∷◌, ◌++◌, length, IfOk, Ok, OnOk};
ghost use Rattle.bits.specs.Sets.{holds};
ghost use Rattle.codec.specs.Books.{book_at};
ghost use Rattle.codec.specs.Writing.{book_bytes, head_bytes, vertex_bytes, held_bytes, count_held, row_bytes, Appended};
ghost use Rattle.graph.specs.Graphs.{state};

use crate::kind::Kind;
use bits::{VertexSet, WIDE, pop_bit};
use graph::Graph;
use model::{NARROW, RIGHTS, Right, Vertex};
use std::alloc::{AllocError, Global};

// The bytes of a book that stands for the graph's state.
#[tactic(auto, unfolding(crate::specs::Writing::vertices_bytes, crate::specs::Writing::book_bytes))]
pub fn write_book(heap: Global, graph: &Graph) -> Result<Vec<u8>, AllocError>
    ensures value { IfOk result (λ v. v.items ≡ book_bytes (state graph.now)) }
    ensures back { IfOk result (λ v. book_at v.items ≡ Ok (state graph.now, length v.items)) }
{
    let mut out = Vec::new(heap);
    write_head(graph, &mut out)?;
    for p in 0..graph.size() {
        write_vertex(graph, p, &mut out)?;
    }
    Ok(out)
}

// The layout, the size, and who acts.
fn write_head(graph: &Graph, out: &mut Vec<u8>) -> Result<(), AllocError>
    ensures { Appended result out.old.items out.new.items (head_bytes (state graph.now)) }
{
    let size = graph.size();
    let subjects = graph.subjects().to_be_bytes();
    if size <= NARROW {
        write_both(&[u8::from(Kind::Book), size], &subjects[16..32], out)
    } else {
        write_both(&[u8::from(Kind::WideBook), size], &subjects, out)
    }
}

fn write_both(first: &[u8], second: &[u8], out: &mut Vec<u8>) -> Result<(), AllocError>
    ensures { Appended result out.old.items out.new.items (first.now ++ second.now) }
{
    write(first, out)?;
    write(second, out)
}

fn write(part: &[u8], out: &mut Vec<u8>) -> Result<(), AllocError>
    ensures { Appended result out.old.items out.new.items part.now }
{
    out.extend_from_slice(part)
}

// How many rights a vertex has, and these in rising order.
fn write_vertex(graph: &Graph, p: Vertex, out: &mut Vec<u8>) -> Result<(), AllocError>
    ensures { Appended result out.old.items out.new.items (vertex_bytes (state graph.now) p) }
{
    let count = held_count(graph, p);
    write(&(count as u16).to_be_bytes(), out)?;
    write_held(graph, p, out)
}

#[tactic(auto, unfolding(crate::specs::Writing::count_held))]
fn held_count(graph: &Graph, p: Vertex) -> usize
    ensures value { result ≡ count_held (state graph.now) p 8 }
    ensures bound { result ≤ 2048 }
{
    (0..RIGHTS).map(|r| graph.targets(p, r).count()).sum()
}

#[tactic(auto, unfolding(crate::specs::Writing::held_bytes))]
fn write_held(graph: &Graph, p: Vertex, out: &mut Vec<u8>) -> Result<(), AllocError>
    ensures { Appended result out.old.items out.new.items (held_bytes (state graph.now) p 8) }
{
    for r in 0..RIGHTS {
        write_row(&graph.targets(p, r), r, out)?;
    }
    Ok(())
}

// One right to each of these vertices: word by word, since a walk through the members of the whole set made a full book take half as long again to write.
fn write_row(targets: &VertexSet, r: Right, out: &mut Vec<u8>) -> Result<(), AllocError>
    ensures { Appended result out.old.items out.new.items (row_bytes r (holds targets.now) 256) }
{
    for c in 0..WIDE {
        write_word(targets, c, r, out)?;
    }
    Ok(())
}

// Goes on with those that word c has: what was written up to number 64 c is then written up to 64 c + 64.
fn write_word(targets: &VertexSet, c: usize, r: Right, out: &mut Vec<u8>) -> Result<(), AllocError>
    requires { c < 4 }
    ensures { OnOk result ((before : List ℕ) → out.old.items ≡ before ++ row_bytes r (holds targets.now) (64 * c) → out.new.items ≡ before ++ row_bytes r (holds targets.now) (64 * c + 64)) }
{
    let mut rest = targets.word(c);
    while let Some(b) = pop_bit(&mut rest) {
        write(&[r, (64 * c + b as usize) as u8], out)?;
    }
    Ok(())
}
