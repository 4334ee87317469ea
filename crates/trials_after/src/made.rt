// Graphs and questions for the tests.
use bits::VertexSet;
use graph::Graph;
use model::{Question, TAKE};

pub const READ: u8 = 2;

pub fn made(size: u8, acting: &[u8], rights: &[[u8; 3]]) -> Option<Graph> {
    let mut subjects = VertexSet::empty();
    for v in acting {
        subjects.insert(*v);
    }
    let mut graph = Graph::new(size, subjects)?;
    for right in rights {
        graph.give(right[0], right[1], right[2]);
    }
    Some(graph)
}

// 0 takes from 1, 1 from 2, 2 from 0, and only the object 3, which 2 takes from, reads 4.
pub fn take_cycle() -> Option<Graph> {
    made(
        5,
        &[0, 1, 2],
        &[
            [0, TAKE, 1],
            [1, TAKE, 2],
            [2, TAKE, 0],
            [2, TAKE, 3],
            [3, READ, 4],
        ],
    )
}

pub fn question(holder: u8, right: u8, target: u8) -> Question {
    Question {
        holder,
        right,
        target,
    }
}
