//! What is seen at once of a step of the Raft peer that was made ahead.
ghost use Rattle.std.specs.Prelude.{◌≡◌, ◌≤◌, length, if◌then◌else◌};
ghost use Rattle.raft_core.specs.Core.{is_leading};
ghost use Rattle.raft_core.specs.Peer.{core_of, core_next};
ghost use Rattle.replica_model.specs.Stepped as steps;
ghost use Rattle.replica_peer.specs.Stages.{ready_left, policy_left, appended_at};

use part_keys::Policy;
use raft_core::{NextPeer, leads};
use replica_model::Place;
use replica_state::{ReplicaState, Told, Writer, keeps_rows, last_behind, leads_on};

/// What is seen at once of a step of the Raft peer.
#[derive(Clone, Copy)]
pub(crate) struct Onward {
    /// Whether it leads the same term on.
    pub on: bool,
    /// Whether it leads behind the step.
    pub leads: bool,
    /// Whether the reads that wait stand.
    pub keeps: bool,
    /// Whether what is left of the leader is ready, and its policy.
    pub ready: bool,
    pub policy: Policy,
    /// The index of the entry that it appends, and the entry's sender, where one is kept.
    pub appended: Option<(u64, Place)>,
    /// Who writes what leaves.
    pub by: Writer,
}

// The policy of what is left of the leader.
fn policy_left(on: bool, began: bool, kept: Policy, told: Policy) -> Policy
    ensures { result ≡ policy_left on began kept told }
{
    if on {
        return kept;
    }
    if began { told } else { kept }
}

// The sender of the entry that is appended, at a leader that leads on.
fn appended_at(on: bool, last: u64, sender: Option<Place>) -> Option<(u64, Place)>
    ensures { result ≡ appended_at on last sender }
{
    if !on {
        return None;
    }
    let Some(place) = sender else {
        return None;
    };
    Some((last, place))
}

/// What is seen at once of a step, of which an election may have begun.
pub(crate) fn look_ahead(
    state: &ReplicaState,
    behind: &NextPeer,
    began: bool,
    told: Told,
    sender: Option<Place>,
) -> Onward
    requires { behind.now.keep ≤ length (core_of state.now.core).log }
    ensures on { result.on ≡ steps.leads_on (core_of state.now.core) (core_next (core_of state.now.core).log behind.now) }
    ensures leads { result.leads ≡ is_leading behind.now.state.role }
    ensures keeps { result.keeps ≡ steps.keeps_rows (core_of state.now.core) (core_next (core_of state.now.core).log behind.now) }
    ensures ready { result.ready ≡ ready_left result.on state.now.leader.ready }
    ensures policy { result.policy ≡ policy_left result.on began state.now.leader.policy told.policy }
    ensures appended { result.appended ≡ appended_at result.on (length (core_next (core_of state.now.core).log behind.now).log) sender }
    ensures by { result.by ≡ record { part = state.now.whose.part; me = (core_of state.now.core).me; term = behind.now.state.term } }
{
    let on = leads_on(&state.core, behind);
    let last = last_behind(&state.core, behind);
    Onward {
        on,
        leads: leads(behind.state.role),
        keeps: keeps_rows(&state.core, behind),
        ready: on && state.leader.ready,
        policy: policy_left(on, began, state.leader.policy, told.policy),
        appended: appended_at(on, last, sender),
        by: Writer {
            part: state.whose.part,
            me: state.core.state().me,
            term: behind.state.term,
        },
    }
}
