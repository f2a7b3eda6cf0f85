//! A step that is kept until a layer of one state is reached.
use crate::owned::UnitTextBuf;
use hm_graph::Step;
use std::marker::Model;

/// A step that isn't written yet, and its unit's own text.
#[derive(Drop)]
pub(crate) struct Kept {
    pub(crate) step: Step,
    pub(crate) own: UnitTextBuf,
}

impl Model for Kept {
    ghost use Rattle.hm_shortest.specs.Stretches.{KeptView};

    ghost Value = { KeptView };

    ghost use Rattle.hm_graph.specs.Graphs.{IsLowStep};
    ghost use Rattle.hm_shortest.specs.UnitTextBuf.{owned_text};

    ghost view = { λ k. record { step = k.step; own = owned_text k.own } };

    ghost invariant = { λ k. IsLowStep k.step };
}
