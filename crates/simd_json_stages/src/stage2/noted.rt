//! What a sink that keeps no nodes, or not all, holds for proofs.
ghost use Rattle.std.specs.Prelude.{◌≡◌};
ghost use Rattle.simd_json_stages.specs.Placed.{Note};
ghost use base.Fml.{ftrue};

use std::marker::Model;

/// A record of the nodes that a [`SpanSink`](super::SpanSink) was given. It has no bytes at run
/// time, and only clauses determine `note`.
#[derive(Drop)]
pub struct Noted {
    ghost note: { Note },
}

impl Model for Noted {
    ghost also_owns = { λ _. ftrue };
}

impl Noted {
    /// Returns the record that the caller's proof chooses; `seen` makes its values available to
    /// that proof.
    #[inline(always)]
    pub fn of<T>(seen: &T) -> Noted
        ghost note: { Note }
        ensures { result.note ≡ note }
    {
        let _ = seen;
        Noted {}
    }
}
