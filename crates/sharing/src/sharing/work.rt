// The answers worked out.
ghost use Rattle.std.specs.Prelude.{◌≡◌, ◌<◌, ◌≤◌, length, MatchOption};
ghost use Rattle.graph.specs.Graphs.{state};
ghost use Rattle.sharing.specs.Of.{answered};
ghost use Rattle.sharing.specs.Table.{table_words};

use super::Sharing;
use crate::table::filled;
use graph::Graph;
use model::RIGHTS;
use spans::width;

impl<'g, 'm> Sharing<'g, 'm> {
    // The words that the answers take, for so many vertices.
    pub fn words(size: u8) -> usize
        ensures value { result ≡ table_words size }
    {
        RIGHTS as usize * size as usize * width(size)
    }

    // The answers, in words that are lent. None if those are too few.
    pub fn of(graph: &'g Graph, rows: &'m mut [u64]) -> Option<Sharing<'g, 'm>>
        ensures cases { MatchOption result
            (length rows.old < table_words (state graph.now).size)
            (λ t. (table_words (state graph.now).size ≤ length rows.old) × (answered t ≡ state graph.now)) }
    {
        let n = graph.size();
        if rows.len() < Sharing::words(n) {
            return None;
        }
        let rows = filled(graph, rows);
        Some(Sharing { graph, rows })
    }
}
