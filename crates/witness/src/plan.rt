// A plan as it is written, act by act.
mod act;
mod bridge;
mod carry;
mod take;

ghost use Rattle.std.specs.Prelude.{◌≤◌};

use crate::routes::Routes;
use graph::Graph;

// What is carried along is told to each step, and is no field: each step may carry another right.
#[derive(Drop)]
pub struct Plan<'a> {
    // What it is chosen from.
    routes: &'a Routes<'a>,
    // The graph after the acts that are written.
    graph: Graph,
    // How many bytes are written, and how many acts: counted where one is done, since plans are made and not walked. The slice that they are written to is no field, but is lent on from call to call:
    // a rule of the project has the free end of a plan lent on to be written.
    pub(crate) used: usize,
    pub(crate) acts: usize,
    ghost each: { acts ≤ used },
}
