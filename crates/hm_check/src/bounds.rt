//! The bounds of prices, and the first price of a layer above its bound.
ghost use Rattle.std.specs.Prelude.{◌≡◌, ℕ, ◌<◌, ◌+◌, ◌^◌, None, length, map, option_map, IsTrue};
ghost use Rattle.hm_cert.specs.Layout.{told};
ghost use Rattle.hm_graph_laws.specs.Ways.{over};
ghost use Rattle.hm_graph.specs.Graphs.{AreLowHops, IsLowStep};
ghost use Rattle.hm_graph.specs.Prices as steps;
ghost use Rattle.hm_check.specs.Rows as rows;
ghost use Rattle.hm_cert.specs.Rows.{AreBelow};
ghost use Rattle.hm_check.specs.Sweeps.{high_why};

use crate::Why;
use hm_cert::{INFINITE, more, price_of};
use hm_graph::{Hop, Step};

/// The price over a hop, by the prices of the next layer.
fn price_over(next_row: &[u64], hop: Hop) -> u64
    requires below { AreBelow (2 ^ 63 + 2 ^ 62) (map told next_row.now) }
    requires low { hop.len < 2 ^ 33 }
    ensures { told result ≡ steps.price_over (map told next_row.now) hop }
{
    match next_row.get(hop.to) {
        Some(price) if *price != INFINITE => *price + hop.len,
        _ => INFINITE,
    }
}

/// The least price over these hops, by the prices of the next layer.
fn least_price(next_row: &[u64], hops: &[Hop]) -> u64
    requires below { AreBelow (2 ^ 63 + 2 ^ 62) (map told next_row.now) }
    requires low { AreLowHops hops.now }
    ensures { told result ≡ steps.best_price (map told next_row.now) hops.now }
{
    let mut best = INFINITE;
    for hop in hops {
        best = best.min(price_over(next_row, *hop));
    }
    best
}

/// As `least_price`, with a fast path for one hop, which most states have.
pub(crate) fn best_price(next_row: &[u64], hops: &[Hop]) -> u64
    requires below { AreBelow (2 ^ 63 + 2 ^ 62) (map told next_row.now) }
    requires low { AreLowHops hops.now }
    ensures { told result ≡ steps.best_price (map told next_row.now) hops.now }
{
    match hops {
        [hop] => price_over(next_row, *hop),
        _ => least_price(next_row, hops),
    }
}

/// Whether a price is above its bound. An infinite one is the greatest.
fn is_above(price: u64, bound: u64) -> bool
    ensures { result ≡ rows.is_above (told price) (told bound) }
{
    price > bound
}

/// Whether no price is above the next layer's price plus `len`.
pub(crate) fn are_within(row: &[u64], next_row: &[u64], len: u64) -> bool
    requires below { AreBelow (2 ^ 63 + 2 ^ 62) (map told next_row.now) }
    requires low { len < 2 ^ 62 }
    requires width { length row.now ≡ length next_row.now }
    ensures { (k : ℕ) → IsTrue result → rows.high_in k 0 (map told row.now) (map (over len) (map told next_row.now)) ≡ None }
{
    for i in 0..row.len() {
        if is_above(row[i], more(next_row[i], len)) {
            return false;
        }
    }
    true
}

/// The first price of layer `k` above its bound, by the prices of the next layer.
pub(crate) fn find_high(k: u64, row: &[u64], next_row: &[u64], step: &Step) -> Option<Why>
    requires below { AreBelow (2 ^ 63 + 2 ^ 62) (map told next_row.now) }
    requires low { IsLowStep step.now }
    requires width { length row.now ≡ length step.now }
    ensures { result ≡ option_map high_why (rows.high_in k 0 (map told row.now) (steps.row_over (map told next_row.now) step.now)) }
{
    for state in 0..row.len() {
        let bound = best_price(next_row, step.hops(state));
        if is_above(row[state], bound) {
            return Some(Why::TooHigh {
                layer: k,
                state: state as u64,
                price: price_of(row[state]),
                bound: price_of(bound),
            });
        }
    }
    None
}

/// The first price of the last layer, layer `k`, that isn't 0.
pub(crate) fn find_high_at_end(k: u64, row: &[u64]) -> Option<Why>
    ensures { result ≡ option_map high_why (rows.high_at_end k 0 (map told row.now)) }
{
    for state in 0..row.len() {
        if row[state] != 0 {
            return Some(Why::TooHigh {
                layer: k,
                state: state as u64,
                price: price_of(row[state]),
                bound: Some(0),
            });
        }
    }
    None
}
