//! What a step is told beside what its input asks, and what stands behind it.
ghost use Rattle.std.specs.Prelude.{◌≡◌, ◌≤◌, ◌&&◌, [], Bool, length, if◌then◌else◌};
ghost use Rattle.chain_leader.specs.Leading.{Leading, pulsed};
ghost use Rattle.raft_core.specs.Peer.{core_of, core_next};
ghost use Rattle.replica_model.specs.Stepped as steps;
ghost use Rattle.replica_model.specs.declared.input.Input.TheVariants as input_of;

use part_keys::Policy;
use raft_core::{NextPeer, RaftCore, leads};
use replica_model::{Input, Tick};

/// By which policy a replica leads where it is elected, and whether it is a pulse.
#[derive(Clone, Copy)]
pub struct Told {
    pub policy: Policy,
    pub pulses: bool,
}

/// What an input tells beside what it asks.
pub fn told_in(input: &Input) -> Told
    ensures policy { result.policy ≡ steps.policy_in input.now }
    ensures again { (lead : Leading) (on : Bool) → steps.again_of on lead input.now ≡ (if on && result.pulses then pulsed lead else []) }
{
    match input {
        Input::Sent(_) => Told {
            policy: Policy::Forward,
            pulses: false,
        },
        Input::Tick(tick) => told_by(tick),
    }
}

// What a tick tells.
fn told_by(tick: &Tick) -> Told
    ensures policy { result.policy ≡ steps.policy_in (input_of.Tick tick.now) }
    ensures again { (lead : Leading) (on : Bool) → steps.again_of on lead (input_of.Tick tick.now) ≡ (if on && result.pulses then pulsed lead else []) }
{
    match tick {
        Tick::Elect(policy) => Told {
            policy: *policy,
            pulses: false,
        },
        Tick::Pulse => Told {
            policy: Policy::Forward,
            pulses: true,
        },
        _ => Told {
            policy: Policy::Forward,
            pulses: false,
        },
    }
}

/// Whether a peer leads the same term on behind a step that was made ahead.
pub fn leads_on(core: &RaftCore, behind: &NextPeer) -> bool
    ensures { result ≡ steps.leads_on (core_of core.now) (core_next (core_of core.now).log behind.now) }
{
    let before = core.state();
    leads(before.role) && leads(behind.state.role) && behind.state.term == before.term
}

/// The last index behind a step that was made ahead.
pub fn last_behind(core: &RaftCore, behind: &NextPeer) -> u64
    requires { behind.now.keep ≤ length (core_of core.now).log }
    ensures { result ≡ length (core_next (core_of core.now).log behind.now).log }
{
    let _last = core.log().len();
    behind.keep + behind.entries.len() as u64
}

/// Whether the reads that wait stand behind a step that was made ahead: the peer leads the same term on, under the same
/// configuration.
pub fn keeps_rows(core: &RaftCore, behind: &NextPeer) -> bool
    requires { behind.now.keep ≤ length (core_of core.now).log }
    ensures { result ≡ steps.keeps_rows (core_of core.now) (core_next (core_of core.now).log behind.now) }
{
    leads_on(core, behind) && core.config_index(behind) == core.log().config().index
}
