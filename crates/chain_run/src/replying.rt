//! A call ends.
ghost use Rattle.std.specs.Prelude.{◌≡◌, ◌++◌, ◌||◌, OnOk};
ghost use Rattle.std.specs.Option.{option_copied, option_map};
ghost use Rattle.chain_world.specs.Events.{brings, holds_of, moment_of};
ghost use Rattle.chain_world.specs.Ledger.{reply_steps};
ghost use Rattle.graph_model.specs.Same.{is_unknown};
ghost use Rattle.chain_run.specs.Shows.{post_in};

use crate::callers::{Caller, is_client, is_open, last_of};
use crate::chains::{Chains, Steps};
use crate::copies::copied_answer;
use crate::listing::item_at;
use crate::posts::ChainPost;
use chain_leader::ChainBody;
use chain_world::ChainEnd;
use graph_model::{Answer, CallId, GStep};
use lists::NoMemory;
use std::alloc::Global;

// Whether the packet is an Answer for the call, with this answer.
fn brings(id: CallId, answer: &Answer, post: &ChainPost) -> bool
    ensures { result ≡ brings id answer.now (post_in post.now) }
{
    let ChainBody::Answer(number, said) = &post.packet.body else {
        return false;
    };
    let ChainEnd::Client(client) = &post.packet.to else {
        return false;
    };
    if *client != id.client {
        return false;
    }
    if *number != id.number {
        return false;
    }
    answer.equals(said)
}

// Whether it is Unknown.
fn is_unknown(answer: &Answer) -> bool
    ensures { result ≡ is_unknown answer.now }
{
    match answer {
        Answer::Unknown => true,
        _ => false,
    }
}

// Whether a call may end so: with Unknown, or with an answer that the packet brings it.
fn may_end(id: CallId, answer: &Answer, post: Option<&ChainPost>) -> bool
    ensures { result ≡ (is_unknown answer.now || holds_of (brings id answer.now) (option_map post_in (option_copied post.entry))) }
{
    if is_unknown(answer) {
        return true;
    }
    let Some(post) = post else {
        return false;
    };
    brings(id, answer, post)
}

// The moment of a packet, where there is one.
fn moment_of(post: Option<&ChainPost>) -> u64
    ensures { result ≡ moment_of (option_map post_in (option_copied post.entry)) }
{
    match post {
        Some(post) => post.moment,
        None => 0,
    }
}

// The steps of an answer; what a read shows is of this moment.
fn push_reply(
    alloc: Global,
    steps: &mut Steps,
    id: CallId,
    answer: &Answer,
    moment: u64,
) -> Result<(), NoMemory>
    ensures { OnOk result (steps.new ≡ steps.old ++ reply_steps id moment answer.now) }
{
    let said = copied_answer(alloc, answer)?;
    match answer {
        Answer::Shown(_) => {
            steps.push(GStep::Read(id, moment))?;
            steps.push(GStep::Reply(id, said))
        }
        _ => steps.push(GStep::Reply(id, said)),
    }
}

impl Chains {
    ghost use Rattle.std.specs.Prelude.{◌≡◌, ℕ, OnOk};
    ghost use Rattle.part_keys.specs.declared.vid_kind.VidKind.{VidKind};
    ghost use Rattle.chain_world.specs.World.{after};
    ghost use Rattle.chain_world.specs.declared.event.ChainEvent.TheVariants as happens;
    ghost use Rattle.chain_run.specs.Shows.{world_of};

    // An open call ends with the answer that a packet brings it, or with none.
    pub(crate) fn reply(
        &mut self,
        alloc: Global,
        id: CallId,
        answer: &Answer,
        number: u64,
    ) -> Result<(), NoMemory>
        ensures { (ids : VidKind) (parts : ℕ) → OnOk result (world_of self.new ≡ after ids parts (world_of self.old) (happens.Reply id answer.now number)) }
    {
        if !is_client(id.client) {
            return Ok(());
        }
        if !is_open(&self.callers, id) {
            return Ok(());
        }
        let post = item_at(self.posts.as_slice(), number);
        if !may_end(id, answer, post) {
            return Ok(());
        }
        push_reply(alloc, &mut self.steps, id, answer, moment_of(post))?;
        let last = last_of(&self.callers, id.client);
        self.callers
            .put(id.client as u64, Caller { last, asks: None })
    }
}
