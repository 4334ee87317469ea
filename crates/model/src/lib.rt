// The take-grant protection model: its rules as values, and its theorems as contracts.
// What a rule means, and when it may be applied, stands in specs/; this crate knows nothing of bytes or of how a graph is stored.
#![tactic(auto)]

mod theorems;

ghost use Rattle.model.specs.Promise.{longest_witness_len};
ghost use Rattle.std.specs.Prelude.{◌≡◌};

pub use theorems::{
    bridges_exchange, certificates_decide, closures_complete, connected_both_ways, exact_witness,
    examples_hold, new_vertex_shared, promise, promise_for_some, rules_make_nothing_new,
    tests_agree,
};

// The number of a vertex.
pub type Vertex = u8;

// How many numbers a vertex can have.
pub const NUMBERS: usize = 256;

// The most vertices of a narrow graph: questions are asked of no other.
pub const NARROW: u8 = 128;

// The number of a right. 0 is to take, 1 is to grant; the others mean nothing to the model.
// It is a plain number, and contracts say where it must be below RIGHTS: rules and questions may name a right that isn't there, and the model says what
// comes of it.
pub type Right = u8;

pub const TAKE: Right = 0;

pub const GRANT: Right = 1;

// How many rights there are.
pub const RIGHTS: Right = 8;

// `who`, who may take from `from`, takes its right to `to`.
#[derive(Clone, Copy, PartialEq, Eq, Debug)]
pub struct Take {
    pub who: Vertex,
    pub from: Vertex,
    pub right: Right,
    pub to: Vertex,
}

// `who`, who may grant to `into`, grants it a right of its own to `to`.
#[derive(Clone, Copy, PartialEq, Eq, Debug)]
pub struct Grant {
    pub who: Vertex,
    pub into: Vertex,
    pub right: Right,
    pub to: Vertex,
}

// `who` creates a vertex, a subject or an object, and has these rights to it: bit r of `rights` stands for right r.
#[derive(Clone, Copy, PartialEq, Eq, Debug)]
pub struct Create {
    pub who: Vertex,
    pub subject: bool,
    pub rights: u8,
}

// `who` gives up a right to `to`.
#[derive(Clone, Copy, PartialEq, Eq, Debug)]
pub struct Remove {
    pub who: Vertex,
    pub right: Right,
    pub to: Vertex,
}

// One step of one subject.
#[derive(Clone, Copy, PartialEq, Eq, Debug)]
pub enum Rule {
    Take(Take),
    Grant(Grant),
    Create(Create),
    Remove(Remove),
}

// A right to a vertex, whoever has it.
#[derive(Clone, Copy, PartialEq, Eq, Debug)]
pub struct Held {
    pub right: Right,
    pub to: Vertex,
}

// Could `holder` come to have this right to `target`?
#[derive(Clone, Copy, PartialEq, Eq, Debug)]
pub struct Question {
    pub holder: Vertex,
    pub right: Right,
    pub target: Vertex,
}

// The most rules of a witness for a graph of so many vertices: none has to be longer.
pub fn longest_witness(size: u8) -> u32
    ensures { result ≡ longest_witness_len size }
{
    let n = u32::from(size) + 2;
    8 * n * n
}
