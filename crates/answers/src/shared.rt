// Who can come to have what, worked out for as long as it is asked for.
ghost use Rattle.std.specs.Prelude.{◌≡◌, OnOk};
ghost use Rattle.std.specs.Fn.{FnOnceReturnsAt};
ghost use Rattle.graph.specs.Graphs.{state};
ghost use Rattle.sharing.specs.Of.{answered};
ghost use Rattle.sharing.specs.declared.sharing.Sharing.{Sharing};

use graph::Graph;
use sharing::Sharing;
use std::alloc::{AllocError, Global};

// What `work` makes of the table of the graph, whose rows go when it is done.
pub fn with_sharing<T, F: FnOnce(&Sharing) -> Result<T, AllocError>>(
    heap: Global,
    graph: &Graph,
    work: F,
) -> Result<T, AllocError>
    requires { F.IsAlwaysCallable work }
    ensures { OnOk result ((sharing : Sharing) × (answered sharing ≡ state graph.now) × FnOnceReturnsAt F.FnOnce work sharing result) }
{
    let mut rows = vec![in heap; 0; Sharing::words(graph.size())]?;
    let Some(sharing) = Sharing::of(graph, &mut rows) else {
        unreachable();
    };
    work(&sharing)
}
