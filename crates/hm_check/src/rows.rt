//! What is found of a certificate's rows.
ghost use Rattle.std.specs.Prelude.{◌≡◌, ◌∷◌, List, map, IfOk};
ghost use Rattle.hm_cert.specs.Certificate.{AreRows};
ghost use Rattle.hm_cert.specs.Layout.{told};
ghost use Rattle.hm_graph_laws.specs.Prices.{Row, first_price};
ghost use Rattle.hm_check.specs.Steps.{by_rows_over, by_width_over, other_width_over};
ghost use Rattle.hm_check.specs.Sweeps.{AreInPlace, IsSwept};
ghost use Rattle.hm_check.specs.Verdicts as verdicts;

use crate::layers::count_layers;
use crate::sweep::Sweep;
use crate::{Verdict, Why};
use hm_base::OutOfMemory;
use hm_cert::{WrittenRows, price_of};
use hm_graph::Graph;
use std::alloc::Global;

/// What is known at the first layer.
fn sweep<'a>(
    alloc: Global,
    graph: &Graph,
    prices: &WrittenRows<'a>,
) -> Result<Sweep<'a>, OutOfMemory>
    requires { AreInPlace graph.now prices.now }
    ensures { IfOk result (IsSwept graph.now prices.now 0) }
{
    let mut sweep = Sweep::at_end(alloc, graph, prices)?;
    let mut layer = graph.last_layer();
    while layer.layer > 0 {
        let after = sweep.pass_still(graph, prices, layer);
        let front = graph.back(after);
        sweep.take_layer(graph, prices, front.layer, graph.step(front))?;
        layer = sweep.go_on(graph, prices, front)?;
    }
    Ok(sweep)
}

/// The first price of the first layer, from the prices of that layer.
fn first_of(row: &[u64]) -> Option<u64>
    ensures { (more : List Row) → result ≡ first_price (map told row.now ∷ more) }
{
    match row {
        [first, ..] => price_of(*first),
        [] => None,
    }
}

/// What is found of the first price, for a text of `length` bytes.
fn by_first(length: u64, first: Option<u64>) -> Verdict
    ensures { result ≡ verdicts.by_first length first }
{
    match first {
        None => Verdict::No {
            why: Why::TooLong { length, first: 0 },
        },
        Some(first) => {
            if length > first {
                Verdict::No {
                    why: Why::TooLong { length, first },
                }
            } else {
                Verdict::Yes { length }
            }
        }
    }
}

/// What is found of the widths of all rows and of all prices, for a text of `length` bytes.
fn by_prices(
    alloc: Global,
    graph: &Graph,
    prices: &WrittenRows<'_>,
    length: u64,
) -> Result<Verdict, OutOfMemory>
    requires { AreInPlace graph.now prices.now }
    ensures { IfOk result (λ found. found ≡ by_width_over graph.now.source.format graph.now.last graph.now.steps length prices.now (other_width_over graph.now.source.format 0 graph.now.last graph.now.steps prices.now)) }
{
    let swept = sweep(alloc, graph, prices)?;
    match swept.found.why {
        Some(why) => Ok(Verdict::No { why }),
        None => Ok(by_first(length, first_of(swept.next_row.as_slice()))),
    }
}

/// What is found of a certificate's rows, for a text of `length` bytes.
pub(crate) fn by_rows(
    alloc: Global,
    graph: &Graph,
    prices: &WrittenRows<'_>,
    length: u64,
) -> Result<Verdict, OutOfMemory>
    requires { AreRows prices.now }
    ensures { IfOk result (λ found. found ≡ by_rows_over graph.now.source.format graph.now.last graph.now.steps length prices.now) }
{
    let want = count_layers(graph);
    if prices.len() != want {
        return Ok(Verdict::No {
            why: Why::WrongLayers {
                got: prices.len() as u64,
                want: want as u64,
            },
        });
    }
    by_prices(alloc, graph, prices, length)
}
