//! A call that was invoked.
use crate::answer::Answer;
use crate::op::Op;

/// How far a call is.
#[derive(Drop)]
pub enum CallState {
    /// Nothing was done for it yet.
    Open,
    /// Its chain is under way.
    Begun,
    /// It has ended, and this is its answer.
    Done(Answer),
}

/// A call that was invoked.
#[derive(Drop)]
pub struct Call {
    /// What it does.
    pub op: Op,
    /// How many steps the graph had taken once the call was invoked.
    pub moment: u64,
    /// How far it is.
    pub state: CallState,
    /// Whether the out-half of its chain was written.
    pub shown: bool,
    /// Whether it was replied.
    pub said: bool,
}
