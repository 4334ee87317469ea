// Routes worked out.
ghost use Rattle.graph.specs.Graphs.{state};
ghost use Rattle.witness.specs.Of.{routed};
ghost use Rattle.std.specs.Prelude.{◌≡◌};

use super::Routes;
use crate::tables::{beside, bridges};
use graph::Graph;
use spans::{Links, TakePaths};

impl<'a> Routes<'a> {
    pub fn of(graph: &'a Graph) -> Routes<'a>
        ensures value { routed result ≡ state graph.now }
    {
        let paths = TakePaths::of(graph);
        let links = Links::of(graph);
        let beside = beside(graph, &links);
        let bridges = bridges(graph, &paths, &beside);
        Routes {
            graph,
            paths,
            links,
            beside,
            bridges,
        }
    }
}
