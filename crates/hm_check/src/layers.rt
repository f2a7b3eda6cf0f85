//! The layers that a certificate writes.
ghost use Rattle.std.specs.Prelude.{◌≡◌};
ghost use Rattle.hm_graph.specs.Prices as steps;
ghost use Rattle.hm_check.specs.Steps.{count_over};

use hm_base::Format;
use hm_graph::laws::every_graph;
use hm_graph::{Graph, Step};

/// Whether a certificate of this format omits layer `k`, the one before the step.
pub(crate) fn is_left_out(format: Format, k: usize, step: &Step) -> bool
    ensures { result ≡ steps.is_left_out format k step.now }
{
    k != 0 && step.is_left_out(format)
}

/// How many layers a certificate writes: the first, the last and those between them that aren't omitted.
pub(crate) fn count_layers(graph: &Graph) -> usize
    ensures { result ≡ count_over graph.now.source.format 0 graph.now.steps }
{
    every_graph(graph);
    if graph.len() == 0 {
        return 1;
    }
    // The last layer has no step after it. The first one is always written, also if its step says otherwise.
    let count = graph.count_kept() + 1;
    if graph.step(graph.first_layer()).is_left_out(graph.format()) {
        count + 1
    } else {
        count
    }
}
