//! What passes along the edges of a route.

ghost use Rattle.std.specs.Prelude.{◌≡◌};
ghost use Rattle.pack_words.specs.Accumulators.{has_places};
ghost use Rattle.scope_ops.specs.CombineOps.{sent_by, received_by};

use pack_words::{FoldKind, RankOp};

/// What passes along an edge: accumulators of so many elements, which the end joins to its own or takes in their place,
/// or a message without words.
#[derive(Clone, Copy)]
pub(crate) enum Relay {
    Join { len: u32, fold: FoldKind },
    Spread { len: u32, fold: FoldKind },
    Pulse,
}

// Whether the messages of a fold have places: a sum needs none.
fn has_places(fold: FoldKind) -> bool
    ensures { result ≡ has_places fold }
{
    match fold {
        FoldKind::Sum => false,
        FoldKind::AbsMax | FoldKind::AbsMin => true,
    }
}

impl Relay {
    // What the start of the edge sends.
    pub(crate) fn send(self, to: u32) -> RankOp
        ensures { result ≡ sent_by self to }
    {
        match self {
            Relay::Join { len, fold } => RankOp::PutAcc {
                to,
                len,
                pairs: has_places(fold),
            },
            Relay::Spread { len, fold } => RankOp::PutAcc {
                to,
                len,
                pairs: has_places(fold),
            },
            Relay::Pulse => RankOp::Pulse {
                peer: to,
                sends: true,
            },
        }
    }

    // What its end receives.
    pub(crate) fn receive(self, from: u32) -> RankOp
        ensures { result ≡ received_by self from }
    {
        match self {
            Relay::Join { len, fold } => RankOp::JoinAcc { from, len, fold },
            Relay::Spread { len, fold } => RankOp::GetAcc {
                from,
                len,
                pairs: has_places(fold),
            },
            Relay::Pulse => RankOp::Pulse {
                peer: from,
                sends: false,
            },
        }
    }
}
