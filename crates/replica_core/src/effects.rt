//! What a step gives.
use member_change::ChangeRefused;
use replica_peer::Leaves;

/// What a step gives: the packets that leave, each with the round of the read that it answers, 0 of any other; and why a change
/// of the members is refused, where a leader refuses it.
#[derive(Drop)]
pub struct Effects {
    pub packets: Leaves,
    pub change: Option<ChangeRefused>,
}

/// The replica's disk failed, in this call or in one before. It takes no step until its file is opened again.
#[derive(Clone, Copy)]
pub struct Down;
