// A book and acts from bytes, and the book after them as bytes.
ghost use Rattle.std.specs.Prelude.{◌≡◌, ℕ, ◌+◌, ◌*◌, ◌<◌, ◌≤◌, length, IfOk};
ghost use Rattle.codec.specs.Played.{Played};
ghost use Rattle.codec.specs.Replay.{acts_at, performed_at, replayed};
ghost use Rattle.codec.specs.Reads.{Reads, filled};
ghost use Rattle.codec.specs.ReplayErrors.{IsAnswered};
ghost use Rattle.codec.specs.Told.{Told, IsFaulted};
ghost use Rattle.graph.specs.Graphs.{state};

use crate::book::read_book;
use crate::error::InputError;
use crate::fault::Fault;
use crate::reader::Reader;
use crate::write::write_book;
use graph::{Apply, Graph, Refusal};
use std::alloc::Global;

// The bytes of the book after all acts of the input, or its first fault.
#[tactic(auto, using(crate::proofs::Told::faults_told, crate::proofs::Played::replays_play), unfolding(crate::specs::Replay::replayed))]
pub fn replay(heap: Global, bytes: &[u8]) -> Result<Vec<u8>, InputError>
    ensures value { IsAnswered result (replayed bytes.now) }
    ensures played { IfOk result (λ v. Played bytes.now v.items) }
    ensures faults { IsFaulted result (Told bytes.now) }
{
    let (mut graph, mut rest) = read_book(bytes)?;
    apply_acts(&mut rest, &mut graph)?;
    Ok(write_book(heap, &graph)?)
}

// Applies the acts to the end of the input.
fn apply_acts(acts: &mut Reader, graph: &mut Graph) -> Result<(), Fault>
    ensures { filled result (state graph.new) ≡ acts_at (length acts.old.bytes.now) acts.old.bytes.now acts.old.at 0 (state graph.old) }
{
    // Counted by hand: a `for` over the numbers would have to be left by a test of the input in its body, which is no plainer.
    let mut count = 0;
    while !acts.is_done() {
        apply_act(acts, count, graph)?;
        count += 1;
    }
    Ok(())
}

// Applies the act that comes next, which has this number.
pub fn apply_act<B: Apply>(acts: &mut Reader, number: usize, book: &mut B) -> Result<(), Fault>
    ensures value { Reads (filled result (B.stands_for book.new)) acts.old acts.new (λ bs at. performed_at bs at number (B.stands_for book.old)) }
    ensures bound { IfOk result (λ _. acts.old.at < acts.new.at) }
{
    let rule = acts.act(book.size())?;
    book.apply(rule).map_err(|refusal| match refusal {
        Refusal::NotApplicable => Fault::NotApplicable { act: number },
        Refusal::Full => Fault::Full { act: number },
    })
}
