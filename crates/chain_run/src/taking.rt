//! A leader takes a packet, is told that a call is given up, or to take up its chains.
ghost use Rattle.std.specs.Prelude.{◌≡◌, ◌<◌, ℕ, None, [], ◌∷◌, IfOk, OnOk};
ghost use Rattle.std.specs.Option.{option_to_list};
ghost use Rattle.chain_leader.specs.Leader.{leads, is_resume};
ghost use Rattle.chain_leader.specs.Leading.{taken};
ghost use Rattle.chain_leader.specs.declared.body.ChainBody.TheVariants as says;
ghost use Rattle.chain_world.specs.Events.{is_to, part_from, kept_sender, behind_taking};
ghost use Rattle.part_keys.specs.declared.vid_kind.VidKind.{VidKind};
ghost use Rattle.part_rules.specs.Folded.{folded};
ghost use Rattle.chain_run.specs.Shows.{leader_of};
ghost use Rattle.chain_run.specs.Steps.{gave};

use crate::chains::{Chains, is_part};
use crate::copies::{copied_body, copied_end};
use crate::leaders::{Seat, Seated};
use crate::leading::front;
use crate::listing::{item_at, list_of};
use crate::posts::{push_any, push_letters};
use chain_leader::{ChainBody, Letter};
use chain_world::ChainEnd;
use graph_model::CallId;
use lists::{Listed, NoMemory};
use part_fold::folded;
use part_keys::{PartEntry, Proposal, VidKind};
use std::alloc::Global;

/// How many chains a step of Resume takes up.
const AT_ONCE: u64 = 64;

// Whether a packet was sent to the part, or to its leader of this term.
fn is_to(part: u32, term: u64, to: &ChainEnd) -> bool
    ensures { result ≡ is_to part term to.now }
{
    match to {
        ChainEnd::Part(other) => *other == part,
        ChainEnd::Leader(other, of) => *other == part && *of == term,
        ChainEnd::Client(_) => false,
    }
}

// The part that a packet came from; 0 where a client sent it.
fn part_from(from: &ChainEnd) -> u32
    ensures { result ≡ part_from from.now }
{
    match from {
        ChainEnd::Client(_) => 0,
        ChainEnd::Part(part) => *part,
        ChainEnd::Leader(part, _) => *part,
    }
}

// The sender, which is kept of a Remote and of a Fence alone.
fn kept_sender(from: &ChainEnd, body: &ChainBody) -> Option<ChainEnd>
    ensures { result ≡ kept_sender from.now body.now }
{
    match body {
        ChainBody::Remote(_, _, _) => Some(copied_end(from)),
        ChainBody::Fence(_, _, _) => Some(copied_end(from)),
        _ => None,
    }
}

// A leader proposes an entry, and keeps the sender with it.
fn propose_entry(
    leader: &mut Seated,
    entry: PartEntry,
    sender: Option<ChainEnd>,
) -> Result<(), NoMemory>
    ensures { OnOk result (leader_of leader.new ≡ behind_taking (leader_of leader.old) (gave (leads leader.old.lead) (entry ∷ [])) sender) }
{
    let number = leader.made.len() as u64;
    leader.made.push(Proposal::Made(entry))?;
    match sender {
        Some(sender) => leader.senders.put(number, sender),
        None => {
            leader.senders.remove(number);
            Ok(())
        }
    }
}

// A leader proposes what its rules gave, where they gave something, and keeps the sender with it.
fn propose(
    leader: &mut Seated,
    proposal: Option<PartEntry>,
    sender: Option<ChainEnd>,
) -> Result<(), NoMemory>
    ensures { OnOk result (leader_of leader.new ≡ behind_taking (leader_of leader.old) (gave (leads leader.old.lead) (option_to_list proposal)) sender) }
{
    match proposal {
        Some(entry) => propose_entry(leader, entry, sender),
        None => {
            leader.senders.remove(leader.made.len() as u64);
            Ok(())
        }
    }
}

// Whether it says to take up chains.
fn is_resume(body: &ChainBody) -> bool
    ensures { result ≡ is_resume body.now }
{
    match body {
        ChainBody::Resume(_, _) => true,
        _ => false,
    }
}

// A leader takes up the chains that stand behind a place in the part behind these items.
fn resumes(
    alloc: Global,
    parts: u32,
    term: u64,
    items: &[(u64, Proposal)],
    leader: &mut Seated,
    of: u64,
    behind: Option<u64>,
) -> Result<Listed<Letter>, NoMemory>
    requires { 0 < parts }
    ensures leader { (ids : VidKind) (part from : ℕ) → OnOk result (leader_of leader.new ≡ behind_taking (leader_of leader.old) (taken ids parts part term (folded parts items.now) (leads leader.old.lead) (says.Resume of behind) from) None) }
    ensures letters { (ids : VidKind) (part from : ℕ) → IfOk result (λ letters. letters ≡ (taken ids parts part term (folded parts items.now) (leads leader.old.lead) (says.Resume of behind) from).letters) }
{
    let machine = folded(alloc, parts, items)?;
    let all = machine.chains().behind(alloc, behind.unwrap_or(0))?;
    let more = all.len() as u64 > AT_ONCE;
    let standing = front(all.as_slice(), AT_ONCE);
    let letters = leader.lead.resumed(alloc, term, of, standing, more)?;
    propose(leader, None, None)?;
    Ok(letters)
}

// A leader takes what a packet says, where the part is the one behind these items.
fn takes(
    alloc: Global,
    ids: VidKind,
    parts: u32,
    seat: Seat,
    items: &[(u64, Proposal)],
    leader: &mut Seated,
    from: &ChainEnd,
    body: &ChainBody,
) -> Result<Listed<Letter>, NoMemory>
    requires { 0 < parts }
    ensures leader { OnOk result (leader_of leader.new ≡ behind_taking (leader_of leader.old) (taken ids parts seat.part seat.term (folded parts items.now) (leads leader.old.lead) body.now (part_from from.now)) (kept_sender from.now body.now)) }
    ensures letters { IfOk result (λ letters. letters ≡ (taken ids parts seat.part seat.term (folded parts items.now) (leads leader.old.lead) body.now (part_from from.now)).letters) }
{
    if is_resume(body) {
        let ChainBody::Resume(of, behind) = body else {
            unreachable!();
        };
        return resumes(alloc, parts, seat.term, items, leader, *of, *behind);
    }
    let said = copied_body(alloc, body)?;
    let proposal = leader
        .lead
        .taken(ids, parts, seat.part, seat.term, said, part_from(from));
    propose(leader, proposal, kept_sender(from, body))?;
    Ok(Listed::new(alloc))
}

impl Chains {
    ghost use Rattle.std.specs.Prelude.{◌≡◌, ◌<◌, OnOk};
    ghost use Rattle.part_keys.specs.declared.vid_kind.VidKind.{VidKind};
    ghost use Rattle.chain_world.specs.World.{after};
    ghost use Rattle.chain_world.specs.declared.event.ChainEvent.TheVariants as happens;
    ghost use Rattle.chain_run.specs.Shows.{world_of};

    // A leader takes a packet that was sent to its part or to it.
    pub(crate) fn take_packet(
        &mut self,
        alloc: Global,
        ids: VidKind,
        parts: u32,
        part: u32,
        term: u64,
        number: u64,
    ) -> Result<(), NoMemory>
        requires { 0 < parts }
        ensures { OnOk result (world_of self.new ≡ after ids parts (world_of self.old) (happens.Take part term number)) }
    {
        let seat = Seat { part, term };
        if !is_part(parts, part) {
            return Ok(());
        }
        if !self.leaders.has(seat) {
            return Ok(());
        }
        let Some(post) = item_at(self.posts.as_slice(), number) else {
            return Ok(());
        };
        if !is_to(part, term, &post.packet.to) {
            return Ok(());
        }
        let Some(mut leader) = self.leaders.remove(seat) else {
            return Ok(());
        };
        let items = front(list_of(&self.decided, part), leader.applied);
        let packet = &post.packet;
        let letters = takes(
            alloc,
            ids,
            parts,
            seat,
            items,
            &mut leader,
            &packet.from,
            &packet.body,
        )?;
        self.leaders.put(seat, leader)?;
        push_letters(
            alloc,
            &mut self.posts,
            part,
            term,
            &None,
            letters.as_slice(),
        )
    }

    // A leader is told that a call's client waits no longer.
    pub(crate) fn give_up(
        &mut self,
        parts: u32,
        part: u32,
        term: u64,
        id: CallId,
    ) -> Result<(), NoMemory>
        ensures { (ids : VidKind) → OnOk result (world_of self.new ≡ after ids parts (world_of self.old) (happens.GiveUp part term id)) }
    {
        let seat = Seat { part, term };
        if !is_part(parts, part) {
            return Ok(());
        }
        if !self.leaders.has(seat) {
            return Ok(());
        }
        let Some(mut leader) = self.leaders.remove(seat) else {
            return Ok(());
        };
        let proposal = leader.lead.given_up(id);
        propose(&mut leader, proposal, None)?;
        self.leaders.put(seat, leader)
    }

    // A leader is told to take up its chains again.
    pub(crate) fn pulse(
        &mut self,
        alloc: Global,
        parts: u32,
        part: u32,
        term: u64,
    ) -> Result<(), NoMemory>
        ensures { (ids : VidKind) → OnOk result (world_of self.new ≡ after ids parts (world_of self.old) (happens.Pulse part term)) }
    {
        if !is_part(parts, part) {
            return Ok(());
        }
        let Some(leader) = self.leaders.get(Seat { part, term }) else {
            return Ok(());
        };
        let letter = leader.lead.pulsed();
        push_any(alloc, &mut self.posts, part, term, &None, &letter)
    }
}
