// Tables of answers on small graphs.
use crate::made::{READ, made, question, take_cycle};
use bits::VertexSet;
use graph::Graph;
use model::{GRANT, TAKE};
use sharing::Sharing;
use std::test::Fail;

// Can x come to have r to y? None if the words are too few.
fn asked(graph: &Graph, rows: &mut [u64], x: u8, r: u8, y: u8) -> Option<bool> {
    Sharing::of(graph, rows).map(|table| table.can_share(question(x, r, y)))
}

fn counted(graph: &Graph, rows: &mut [u64], r: u8, y: u8) -> usize {
    Sharing::of(graph, rows).map_or(0, |table| table.count(r, y))
}

// Each vertex takes from the next, and the last reads the first.
fn chain(size: u8, acting: VertexSet) -> Option<Graph> {
    let mut graph = Graph::new(size, acting)?;
    for v in 1..size {
        graph.give(v - 1, TAKE, v);
    }
    graph.give(size.saturating_sub(1), READ, 0);
    Some(graph)
}

fn give_all(graph: &mut Graph, p: u8, r: u8) {
    for q in 0..graph.size() {
        if q != 3 {
            graph.give(p, r, q);
        }
    }
}

// Nobody acts, and each has each right to all, but for vertex 3.
fn full(size: u8) -> Option<Graph> {
    let mut graph = Graph::new(size, VertexSet::empty())?;
    for p in 0..size {
        for r in 0..8 {
            give_all(&mut graph, p, r);
        }
    }
    Some(graph)
}

// How many can come to read the first vertex of a chain.
fn readers(size: u8, acting: VertexSet) -> usize {
    chain(size, acting).map_or(0, |graph| counted(&graph, &mut [7; 8192], READ, 0))
}

// How many can come to have r to y where each has each right to all but vertex 3.
fn holders(size: u8, r: u8, y: u8) -> usize {
    full(size).map_or(0, |graph| counted(&graph, &mut [7; 8192], r, y))
}

// All that acts comes to read what one does; where nobody acts, only one does.
#[test]
fn long_chains(rt: HostRuntime) {
    assert_eq!(rt; readers(128, VertexSet::below(128)), 128);
    assert_eq!(rt; readers(255, VertexSet::below(255)), 255);
    assert_eq!(rt; readers(255, VertexSet::empty()), 1);
}

// So many rights that whole blocks are turned, the last of them in part.
#[test]
fn full_graphs(rt: HostRuntime) {
    assert_eq!(rt; holders(70, 7, 69), 70);
    assert_eq!(rt; holders(70, 7, 3), 0);
    assert_eq!(rt; holders(255, GRANT, 254), 255);
}

#[test]
fn one_vertex(rt: HostRuntime) -> Result<(), Fail> {
    let Some(graph) = made(1, &[0], &[[0, READ, 0]]) else {
        return Err(Fail::new("no graph"));
    };
    let mut rows = [7; 16];
    assert_eq!(rt; asked(&graph, &mut rows, 0, READ, 0), Some(true));
    assert_eq!(rt; asked(&graph, &mut rows, 0, TAKE, 0), Some(false));
    assert_eq!(rt; asked(&graph, &mut rows[0..15], 0, READ, 0), None);
    Ok(())
}

#[test]
fn a_take_cycle(rt: HostRuntime) -> Result<(), Fail> {
    let graph = take_cycle().ok_or("no graph")?;
    let mut rows = [0; 80];
    assert_eq!(rt; asked(&graph, &mut rows, 0, READ, 4), Some(true));
    assert_eq!(rt; asked(&graph, &mut rows, 4, READ, 4), Some(false));
    assert_eq!(rt; counted(&graph, &mut rows, READ, 4), 4);
    Ok(())
}

#[test]
fn nobody_acts(rt: HostRuntime) -> Result<(), Fail> {
    let Some(graph) = made(3, &[], &[[0, TAKE, 1], [1, READ, 2]]) else {
        return Err(Fail::new("no graph"));
    };
    let mut rows = [0; 48];
    assert_eq!(rt; asked(&graph, &mut rows, 0, READ, 2), Some(false));
    assert_eq!(rt; counted(&graph, &mut rows, READ, 2), 1);
    Ok(())
}

// 0 and 1 both take from objects, of which 2 has grant to 3: a bridge. What 1 reads, 0 can come to read.
#[test]
fn over_a_grant(rt: HostRuntime) -> Result<(), Fail> {
    let Some(graph) = made(
        5,
        &[0, 1],
        &[[0, TAKE, 2], [1, TAKE, 3], [2, GRANT, 3], [1, READ, 4]],
    ) else {
        return Err(Fail::new("no graph"));
    };
    let mut rows = [0; 80];
    assert_eq!(rt; asked(&graph, &mut rows, 0, READ, 4), Some(true));
    assert_eq!(rt; asked(&graph, &mut rows, 2, READ, 4), Some(false));
    assert_eq!(rt; asked(&graph, &mut rows, 0, 8, 4), Some(false));
    Ok(())
}
