//! Chains over a schedule, as a program.
ghost use Rattle.std.specs.Prelude.{◌≡◌};
ghost use Rattle.chain_world.specs.Events.{is_part};
ghost use Rattle.chain_world.specs.State.{start};
ghost use Rattle.chain_run.specs.Shows.{world_of};

use crate::callers::Caller;
use crate::leaders::Leaders;
use crate::listing::list_of;
use crate::posts::ChainPosts;
use chain_world::ChainEvent;
use graph_model::GStep;
use lists::{Listed, NoMemory};
use part_fold::Numbered;
use part_keys::{Proposal, VidKind};
use std::alloc::Global;

/// Events of a world of parts, in their order.
pub type ChainEvents = Listed<ChainEvent>;

/// Steps of the graph machine, in their order.
pub type Steps = Listed<GStep>;

/// What a part has decided: items, each with the term of the leader that made it.
pub type Decided = Listed<(u64, Proposal)>;

/// A world of parts behind a list of events: the graph steps so far, each part's decided list, its leaders, the packets that
/// were sent, and the clients.
#[derive(Drop)]
pub struct Chains {
    pub(crate) steps: Steps,
    pub(crate) decided: Numbered<Decided>,
    pub(crate) founded: Numbered<Listed<Proposal>>,
    pub(crate) leaders: Leaders,
    pub(crate) posts: ChainPosts,
    pub(crate) callers: Numbered<Caller>,
}

impl Chains {
    ghost use Rattle.std.specs.Prelude.{◌≡◌, ◌<◌, ◌≤◌, OnOk, IfOk};
    ghost use Rattle.chain_run.specs.Causes.{HaveCauses};
    ghost use Rattle.chain_world.specs.Outside.{IsGraphRun, outside};
    ghost use Rattle.chain_world.specs.State.{start, decided_of};
    ghost use Rattle.chain_world.specs.World.{run, after};
    ghost use Rattle.chain_world.specs.declared.event.ChainEvent.TheVariants as happens;
    ghost use Rattle.chain_run.specs.Shows.{world_of, posted};

    /// The world behind these events, in a space of this kind of ids with so many parts. An event that isn't lawful changes
    /// nothing. Refused for want of memory alone.
    pub fn run(
        alloc: Global,
        ids: VidKind,
        parts: u32,
        events: &ChainEvents,
    ) -> Result<Chains, NoMemory>
        requires { (0 < parts) × (parts ≤ 64) }
        ensures run { IfOk result (λ chains. world_of chains ≡ run ids parts events.now) }
        ensures refines { IfOk result (λ chains. IsGraphRun chains.steps (outside ids parts events.now)) }
        ensures causes { IfOk result (λ chains. HaveCauses ids parts events.now chains) }
    {
        let mut chains = start(alloc);
        for event in events.as_slice() {
            chains.take(alloc, ids, parts, event)?;
        }
        Ok(chains)
    }

    /// The graph steps that were taken.
    pub fn steps(&self) -> &Steps
        ensures { result.now ≡ (world_of self.now).ledger.steps }
    {
        &self.steps
    }

    /// What a part has decided.
    pub fn decided(&self, part: u32) -> &[(u64, Proposal)]
        ensures { result.now ≡ decided_of (world_of self.now) part }
    {
        list_of(&self.decided, part)
    }

    /// All packets that were ever sent, in their order, each with its moment.
    pub fn packets(&self) -> &ChainPosts
        ensures { posted result.now ≡ (world_of self.now).posts }
    {
        &self.posts
    }

    // What happens next.
    fn take(
        &mut self,
        alloc: Global,
        ids: VidKind,
        parts: u32,
        event: &ChainEvent,
    ) -> Result<(), NoMemory>
        requires { 0 < parts }
        ensures { OnOk result (world_of self.new ≡ after ids parts (world_of self.old) event.now) }
    {
        match event {
            ChainEvent::Invoke(id, op) => self.invoke(alloc, ids, parts, *id, op),
            ChainEvent::Members(part, term, config) => {
                self.propose_members(alloc, parts, *part, *term, config)
            }
            ChainEvent::Lead(part, term, policy, applied) => {
                self.lead(alloc, parts, *part, *term, *policy, *applied)
            }
            ChainEvent::Take(part, term, number) => {
                self.take_packet(alloc, ids, parts, *part, *term, *number)
            }
            ChainEvent::Decide(part, term, number) => {
                self.decide(alloc, parts, *part, *term, *number)
            }
            ChainEvent::Apply(part, term) => self.apply(alloc, parts, *part, *term),
            ChainEvent::GiveUp(part, term, id) => self.give_up(parts, *part, *term, *id),
            ChainEvent::Pulse(part, term) => self.pulse(alloc, parts, *part, *term),
            ChainEvent::See(part, term, id) => self.see(alloc, parts, *part, *term, *id),
            ChainEvent::Reply(id, answer, number) => self.reply(alloc, *id, answer, *number),
        }
    }
}

// Nothing has happened.
fn start(alloc: Global) -> Chains
    ensures { world_of result ≡ start }
{
    Chains {
        steps: Listed::new(alloc),
        decided: Numbered::new(alloc),
        founded: Numbered::new(alloc),
        leaders: Leaders::new(alloc),
        posts: Listed::new(alloc),
        callers: Numbered::new(alloc),
    }
}

/// Whether there is such a part.
pub(crate) fn is_part(parts: u32, part: u32) -> bool
    ensures { result ≡ is_part parts part }
{
    0 < part && part <= parts
}
