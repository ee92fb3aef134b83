//! What a client makes.
use graph_model::{Answer, CallId, Op};
use replica_model::Packet;

/// A call ends with an answer.
#[derive(Drop)]
pub struct Said {
    pub id: CallId,
    pub answer: Answer,
}

/// A call begins.
#[derive(Drop)]
pub struct Invoked {
    pub id: CallId,
    pub op: Op,
}

/// What a client makes of what comes: the call that ends, then the call that begins; and the packet that it sends.
#[derive(Drop)]
pub struct ClientEffects {
    pub reply: Option<Said>,
    pub next: Option<Invoked>,
    pub packet: Option<Packet>,
}

impl ClientEffects {
    ghost use Rattle.std.specs.Prelude.{None};
    ghost use Rattle.statement_run.specs.Made.{IsMade};

    /// Nothing.
    pub(crate) fn none() -> ClientEffects
        ensures { IsMade None None None result }
    {
        ClientEffects {
            reply: None,
            next: None,
            packet: None,
        }
    }
}
