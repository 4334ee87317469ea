// Whom the right goes over: who has it, the last who gets at it, and the first who hands it on.
ghost use Rattle.std.specs.Prelude.{◌≡◌};
ghost use Rattle.model.specs.Exact.{first_for, last_for};
ghost use Rattle.spans.specs.Barriers.{Round};
ghost use Rattle.witness.specs.Ends.{Chosen};
ghost use Rattle.witness.specs.Of.{routed};

use crate::choose::lowest_of;
use crate::routes::Routes;
use bits::those;
use model::{Question, Vertex};
use spans::Barrier;

#[derive(Clone, Copy)]
pub struct Ends {
    // The lowest who has the right already, and for whom there are such a last and first: not the question's holder, who is to come to have it.
    pub holder: Vertex,
    // The lowest who spans terminally to the holder.
    pub last: Vertex,
    // The lowest who spans initially to the question's holder and is connected with the last.
    pub first: Vertex,
}

impl Ends {
    // Those of a right that goes over this holder; the barrier is that round x.
    fn over(routes: &Routes, x: Vertex, holder: Vertex, barrier: &Barrier) -> Ends
        requires { Round (routed routes.now) x barrier.now }
        ensures holder { result.holder ≡ holder }
        ensures last { result.last ≡ last_for (routed routes.now) x holder }
        ensures first { result.first ≡ first_for (routed routes.now) x result.last }
    {
        let size = routes.graph.size();
        let last = lowest_of(&routes.terminal(holder).intersection(&barrier.inner), size);
        let first = lowest_of(&routes.initial(x).intersection(&routes.island(last)), size);
        Ends {
            holder,
            last,
            first,
        }
    }

    // If the right never comes about, the barrier that shows it.
    pub fn of(routes: &Routes, question: Question) -> Result<Ends, Barrier>
        ensures cases { Chosen (routed routes.now) question result }
    {
        let x = question.holder;
        let barrier = routes.links.barrier(x);
        let graph = routes.graph;
        // One call of `those`, here and in `spans`: a method of Graph would say no more than it does.
        let holders = those(graph.size(), |t| {
            graph.has(t, question.right, question.target)
        });
        let reached = holders.intersection(&barrier.out);
        let Some(holder) = reached.lowest() else {
            return Err(barrier);
        };
        Ok(Ends::over(routes, x, holder, &barrier))
    }
}
