// The conditions of a right certificate. Each vertex is looked at once, with its row of the right in question, of takes and of grants; no path is followed.
ghost use Rattle.std.specs.Prelude.{◌≡◌, ℕ, ◌<◌, Bool, false, not, ◌&&◌, ◌||◌, T, is_some};
ghost use Rattle.bits.specs.Sets.{holds, Same};
ghost use Rattle.checker.specs.First.{first_below};
ghost use Rattle.checker.specs.FirstFault.{has_some, unfit_at, first_fault};
ghost use Rattle.checker.specs.Looking.{certificate, looked_at, nothing_found, found_then, standing_fits, take_broken, grant_broken};
ghost use Rattle.checker.specs.Right.{NeverHave};
ghost use Rattle.checker.specs.declared.fault.CheckFault.TheVariants.{UnfitRight};
ghost use Rattle.graph.specs.Graphs.{state};
ghost use Rattle.model.specs.Bounded.{only};
ghost use Rattle.model.specs.Certificates.{vertex_fits, is_right};
ghost use Rattle.std.specs.Option.{option_or};
ghost use Rattle.std.specs.Bool.{then_some};

use crate::fault::CheckFault;
use bits::VertexSet;
use codec::Question;
use graph::Graph;
use model::{GRANT, Right, TAKE, Vertex};

// Three sets that are to show that a right never comes about: J, I and O of a sheet. Whoever makes sheets has such sets of its own, since the checker
// stands on nothing that finds paths.
#[derive(Drop)]
pub struct Certificate {
    pub inner: VertexSet,
    pub into: VertexSet,
    pub out: VertexSet,
}

// What a certificate is to show: that none of the holders ever has the right to one of the targets.
#[derive(Drop)]
pub struct Claim {
    pub holders: VertexSet,
    pub right: Right,
    pub targets: VertexSet,
}

impl Claim {
    // What a no to the question says.
    pub fn no(question: Question) -> Claim
        ensures holders { holds result.holders ≡ only question.holder }
        ensures right { result.right ≡ question.right }
        ensures targets { holds result.targets ≡ only question.target }
    {
        Claim {
            holders: VertexSet::only(usize::from(question.holder)),
            right: question.right,
            targets: VertexSet::only(usize::from(question.target)),
        }
    }
}

impl Certificate {
    // The first fault of the certificate for this claim. None exactly if it is right, and then the claim is true.
    #[tactic(auto, unfolding(crate::specs::First::first_below))]
    pub fn first_fault(&self, graph: &Graph, claim: &Claim) -> Option<CheckFault>
        ensures right { not (is_some result) ≡ is_right (state graph.now) (holds claim.now.holders) claim.now.right (holds claim.now.targets) (certificate self.now) }
        ensures never { is_some result ≡ false → NeverHave (state graph.now) (holds claim.now.holders) claim.now.right (holds claim.now.targets) }
        ensures value { result ≡ first_fault (state graph.now) (holds claim.now.holders) claim.now.right (holds claim.now.targets) (certificate self.now) }
    {
        let look = Look {
            graph,
            claim,
            sets: self,
        };
        // A loop: a fold over the vertices would be no shorter, and `nothing` says what a derived `Default` would not.
        let mut looked = Looked::nothing();
        for p in 0..graph.size() {
            looked = looked.seen(look.at(p));
        }
        looked.first()
    }
}

// A certificate that is looked at, vertex by vertex: in which graph, and what it is to show.
#[derive(Drop)]
struct Look<'a> {
    graph: &'a Graph,
    claim: &'a Claim,
    sets: &'a Certificate,
}

impl Look<'_> {
    // What is wrong with this vertex, of each kind.
    fn at(&self, p: Vertex) -> Looked
        ensures { result ≡ looked_at (state self.now.graph.now) (holds self.now.claim.now.holders) self.now.claim.now.right (holds self.now.claim.now.targets) (certificate self.now.sets.now) p }
    {
        let has = self.has_one(p);
        let held = self.claim.holders.contains(p) && has;
        let out_holds = self.sets.out.contains(p) && has;
        Looked {
            held: held.then_some(CheckFault::Held { vertex: p }),
            out_holds: out_holds.then_some(CheckFault::OutHolds { vertex: p }),
            unfit: self.unfit(p),
        }
    }

    // Has p the right to one of the targets?
    fn has_one(&self, p: Vertex) -> bool
        ensures { result ≡ has_some (state self.now.graph.now) self.now.claim.now.right (holds self.now.claim.now.targets) p }
    {
        self.graph
            .targets(p, self.claim.right)
            .meets(&self.claim.targets)
    }

    // What breaks a condition: the vertex alone, or else the first of its takes and grants.
    fn unfit(&self, p: Vertex) -> Option<CheckFault>
        ensures { result ≡ unfit_at (state self.now.graph.now) (holds self.now.claim.now.holders) (certificate self.now.sets.now) p }
    {
        let fits = self.standing(p).fits();
        (!fits)
            .then_some(CheckFault::UnfitVertex { vertex: p })
            .or(first_right(p, TAKE, &self.unfit_takes(p)))
            .or(first_right(p, GRANT, &self.unfit_grants(p)))
    }

    fn standing(&self, p: Vertex) -> Standing
        ensures { standing_fits result ≡ vertex_fits (state self.now.graph.now) (holds self.now.claim.now.holders) (certificate self.now.sets.now) p }
    {
        Standing {
            subject: self.graph.is_subject(p),
            holder: self.claim.holders.contains(p),
            inner: self.sets.inner.contains(p),
            out: self.sets.out.contains(p),
            into: self.sets.into.contains(p),
        }
    }

    // Whom p has take to and shouldn't: what one of O (`out`) has take to is in O, and what has take to one of I (`into`) is in I.
    fn unfit_takes(&self, p: Vertex) -> VertexSet
        ensures { (k : ℕ) → holds result k ≡ take_broken (state self.now.graph.now) (certificate self.now.sets.now) p k }
    {
        let sets = self.sets;
        let takes = self.graph.targets(p, TAKE);
        let leaving = when(sets.out.contains(p), takes.difference(&sets.out));
        let entering = when(!sets.into.contains(p), takes.intersection(&sets.into));
        leaving.union(&entering)
    }

    // Whom p has grant to and shouldn't: whom one of O has grant to is in I, and so is what has grant to one of O or to a holder.
    fn unfit_grants(&self, p: Vertex) -> VertexSet
        ensures { (k : ℕ) → holds result k ≡ grant_broken (state self.now.graph.now) (holds self.now.claim.now.holders) (certificate self.now.sets.now) p k }
    {
        let sets = self.sets;
        let grants = self.graph.targets(p, GRANT);
        let leaving = when(sets.out.contains(p), grants.difference(&sets.into));
        let entering = when(
            !sets.into.contains(p),
            grants.intersection(&sets.out.union(&self.claim.holders)),
        );
        leaving.union(&entering)
    }
}

// The first fault of each kind among the vertices so far.
#[derive(Drop)]
struct Looked {
    held: Option<CheckFault>,
    out_holds: Option<CheckFault>,
    unfit: Option<CheckFault>,
}

impl Looked {
    fn nothing() -> Looked
        ensures { result ≡ nothing_found }
    {
        Looked {
            held: None,
            out_holds: None,
            unfit: None,
        }
    }

    // One vertex more: what was found before it stays.
    fn seen(self, next: Looked) -> Looked
        ensures { result ≡ found_then self next }
    {
        Looked {
            held: self.held.or(next.held),
            out_holds: self.out_holds.or(next.out_holds),
            unfit: self.unfit.or(next.unfit),
        }
    }

    // A holder's having the right comes before all else, then that of one of O.
    fn first(self) -> Option<CheckFault>
        ensures { result ≡ option_or (option_or self.held self.out_holds) self.unfit }
    {
        self.held.or(self.out_holds).or(self.unfit)
    }
}

// What a vertex is, and which sets it is in.
#[derive(Drop)]
struct Standing {
    subject: bool,
    holder: bool,
    inner: bool,
    out: bool,
    into: bool,
}

impl Standing {
    // J are subjects, in O and in I; subjects of O and of I are in J; a holder that is a subject is in I.
    fn fits(self) -> bool
        ensures { result ≡ standing_fits self }
    {
        if self.inner && !(self.subject && self.out && self.into) {
            return false;
        }
        if self.subject && (self.out || self.into) && !self.inner {
            return false;
        }
        !(self.holder && self.subject && !self.into)
    }
}

// The lowest of those to whom p has this right and shouldn't.
fn first_right(p: Vertex, right: Right, unfit: &VertexSet) -> Option<CheckFault>
    ensures { (n : ℕ) (f : ℕ → Bool) → Same f (holds unfit.now) → ((k : ℕ) → T (f k) → k < n) → result ≡ first_below n (λ k. then_some (f k) (UnfitRight p right k)) }
{
    unfit.lowest().map(|to| CheckFault::UnfitRight {
        vertex: p,
        right,
        to,
    })
}

// The set if the test holds, else none.
fn when(test: bool, set: VertexSet) -> VertexSet
    ensures { (k : ℕ) → holds result k ≡ (test && holds set k) }
{
    if test { set } else { VertexSet::empty() }
}
