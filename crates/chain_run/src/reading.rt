//! A leader answers a read.
ghost use Rattle.std.specs.Prelude.{◌≡◌};
ghost use Rattle.std.specs.Option.{option_copied};
ghost use Rattle.chain_world.specs.Events.{query_in, asked_in, asked_by, first_asked, is_at};
ghost use Rattle.chain_run.specs.Shows.{post_in, posted};

use crate::chains::{Chains, is_part};
use crate::leaders::Seat;
use crate::leading::front;
use crate::listing::list_of;
use crate::posts::{ChainPost, push_post};
use chain_leader::{ChainBody, read};
use chain_world::ChainEnd;
use graph_model::{CallId, Query};
use lists::NoMemory;
use part_fold::folded;
use part_keys::PartEntry;
use std::alloc::Global;

// The query of a read of that call.
fn query_in(id: CallId, entry: &PartEntry) -> Option<&Query>
    ensures { option_copied result ≡ query_in id entry.now }
{
    let PartEntry::Read(call, query) = entry else {
        return None;
    };
    if !call.cmp(&id).is_eq() {
        return None;
    }
    Some(query)
}

// The query of a read of that call whose Request was sent to the part by this packet.
fn asked_by(part: u32, id: CallId, post: &ChainPost) -> Option<&Query>
    ensures { option_copied result ≡ asked_by part id (post_in post.now) }
{
    let ChainEnd::Part(to) = &post.packet.to else {
        return None;
    };
    if *to != part {
        return None;
    }
    let ChainBody::Request(_, entry) = &post.packet.body else {
        return None;
    };
    query_in(id, entry)
}

// The same, by the first of these packets that is one.
fn first_asked(part: u32, id: CallId, posts: &[ChainPost]) -> Option<&Query>
    ensures { option_copied result ≡ first_asked part id (posted posts.now) }
{
    for post in posts {
        if let Some(query) = asked_by(part, id, post) {
            return Some(query);
        }
    }
    None
}

impl Chains {
    ghost use Rattle.std.specs.Prelude.{◌≡◌, ◌<◌, OnOk};
    ghost use Rattle.part_keys.specs.declared.vid_kind.VidKind.{VidKind};
    ghost use Rattle.chain_world.specs.World.{after};
    ghost use Rattle.chain_world.specs.declared.event.ChainEvent.TheVariants as happens;
    ghost use Rattle.chain_run.specs.Shows.{world_of};

    // A leader that is ready and has applied all that is decided answers a read.
    pub(crate) fn see(
        &mut self,
        alloc: Global,
        parts: u32,
        part: u32,
        term: u64,
        id: CallId,
    ) -> Result<(), NoMemory>
        requires { 0 < parts }
        ensures { (ids : VidKind) → OnOk result (world_of self.new ≡ after ids parts (world_of self.old) (happens.See part term id)) }
    {
        if !is_part(parts, part) {
            return Ok(());
        }
        let decided = list_of(&self.decided, part);
        let Some(leader) = self.leaders.get(Seat { part, term }) else {
            return Ok(());
        };
        if !leader.lead.ready {
            return Ok(());
        }
        if leader.applied != decided.len() as u64 {
            return Ok(());
        }
        let Some(query) = first_asked(part, id, self.posts.as_slice()) else {
            return Ok(());
        };
        let machine = folded(alloc, parts, front(decided, leader.applied))?;
        let found = machine.view(alloc, query)?;
        let body = ChainBody::Answer(id.number, read(found));
        let moment = self.steps.len() as u64;
        push_post(
            &mut self.posts,
            ChainEnd::Leader(part, term),
            ChainEnd::Client(id.client),
            body,
            moment,
        )
    }
}
