//! Three replicas of one part, and the packets between them.
ghost use Rattle.std.specs.Prelude.{◌<◌, IfOk};
ghost use Rattle.disk_model.specs.Memory.{reads_of, LeftOf};
ghost use Rattle.replica_core.specs.Replica.{IsSound};
ghost use Rattle.replica_model.specs.declared.input.Input.TheVariants.{Sent};
ghost use Rattle.replica_state.specs.State.{IsHeard};
ghost use Rattle.replica_tests.specs.Net.{AreSound};

use crate::hearing::is_heard;
use crate::node;
use chain_leader::ChainBody;
use disk_model::{MemDisk, Pick, Plan};
use graph_model::Answer;
use lists::Listed;
use part_keys::Policy;
use raft_log::Peers;
use replica_core::{Effects, Replica};
use replica_model::{Body, Input, Packet, Place, Tick, To};
use replica_peer::Leaves;
use std::alloc::Global;
use std::collections::VecDeque;
use std::test::Fail;

/// The peers 1 to 3, what is on its way between them, what is kept back, and what client 1 was answered by its calls.
#[derive(Drop)]
pub struct Net {
    pub one: Replica<MemDisk>,
    pub two: Replica<MemDisk>,
    pub three: Replica<MemDisk>,
    mail: VecDeque<Packet>,
    kept: VecDeque<Packet>,
    pub answers: Vec<(u64, Answer)>,
}

/// The peer to whom a packet goes, 0 for a client. A try counts the peers round.
fn receiver(packet: &Packet) -> u32 {
    match packet.to {
        To::Client(_) => 0,
        To::Peer(_, peer) => peer,
        To::Part(_, count) => 1 + count % 3,
    }
}

/// The peer who sends it, 0 for a client.
fn sender(packet: &Packet) -> u32 {
    match packet.from {
        Place::Client(_) => 0,
        Place::Peer(_, peer) => peer,
    }
}

fn is_remote(packet: &Packet) -> bool {
    matches!(packet.body, Body::Chain(ChainBody::Remote(_, _, _)))
}

/// The call that is answered, by its number, and its answer.
fn answer_in(packet: Packet) -> Option<(u64, Answer)> {
    let Packet {
        from: _,
        to: _,
        body,
    } = packet;
    let Body::Chain(said) = body else {
        return None;
    };
    match said {
        ChainBody::Answer(number, answer) => Some((number, answer)),
        _ => None,
    }
}

/// A peer that is created, with all three as voters.
fn one_of_three(alloc: Global, peer: u32) -> Result<Replica<MemDisk>, Fail>
    requires { 0 < peer }
    ensures { IfOk result (IsSound reads_of LeftOf) }
{
    let voters = Peers::new().with(1).with(2).with(3);
    let disk = MemDisk::empty(alloc, Plan::new(None, Listed::new(alloc)));
    node::create(alloc, peer, voters, disk)
}

impl Net {
    /// The peers are created.
    pub fn new(alloc: Global) -> Result<Net, Fail>
        ensures { IfOk result (λ net. AreSound net.one net.two net.three) }
    {
        Ok(Net {
            one: one_of_three(alloc, 1)?,
            two: one_of_three(alloc, 2)?,
            three: one_of_three(alloc, 3)?,
            mail: VecDeque::new(alloc),
            kept: VecDeque::new(alloc),
            answers: Vec::new(alloc),
        })
    }

    /// A packet is handed to its receiver, and what leaves is on its way.
    pub fn ask(&mut self, alloc: Global, packet: Packet) -> Result<(), Fail>
        requires sound { AreSound self.old.one self.old.two self.old.three }
        requires heard { IsHeard (Sent packet) }
        ensures { AreSound self.new.one self.new.two self.new.three }
    {
        self.step(alloc, receiver(&packet), Input::Sent(packet))
    }

    /// This peer takes a step, and what leaves is on its way.
    fn step(&mut self, alloc: Global, peer: u32, input: Input) -> Result<(), Fail>
        requires sound { AreSound self.old.one self.old.two self.old.three }
        requires heard { IsHeard input }
        ensures { AreSound self.new.one self.new.two self.new.three }
    {
        let given = match peer {
            1 => node::step(alloc, &mut self.one, input)?,
            2 => node::step(alloc, &mut self.two, input)?,
            _ => node::step(alloc, &mut self.three, input)?,
        };
        let Some(Effects { packets, change: _ }) = given else {
            return Err(Fail::new("a replica is down"));
        };
        post(&mut self.mail, packets)
    }

    /// This peer is told so, and then all packets are delivered.
    pub fn tick(&mut self, alloc: Global, peer: u32, tick: Tick) -> Result<(), Fail>
        requires sound { AreSound self.old.one self.old.two self.old.three }
        ensures { AreSound self.new.one self.new.two self.new.three }
    {
        self.step(alloc, peer, Input::Tick(tick))?;
        self.deliver(alloc, 0)
    }

    /// This peer begins an election; all packets are delivered but those from and to the peer `apart`, which are kept back.
    pub fn elect(&mut self, alloc: Global, peer: u32, apart: u32) -> Result<(), Fail>
        requires sound { AreSound self.old.one self.old.two self.old.three }
        ensures { AreSound self.new.one self.new.two self.new.three }
    {
        self.step(alloc, peer, Input::Tick(Tick::Elect(Policy::Forward)))?;
        self.deliver(alloc, apart)
    }

    /// Delivers all packets but those from and to the peer `apart`, which are kept back.
    pub fn deliver(&mut self, alloc: Global, apart: u32) -> Result<(), Fail>
        requires sound { AreSound self.old.one self.old.two self.old.three }
        ensures { AreSound self.new.one self.new.two self.new.three }
    {
        'mail: for _ in 0..1000 {
            let Some(packet) = self.mail.pop_front() else {
                return Ok(());
            };
            let to = receiver(&packet);
            if apart > 0 && (to == apart || sender(&packet) == apart) {
                self.kept.push_back(packet)?;
            } else {
                self.hand(alloc, to, packet)?;
            }
        }
        Err(Fail::new("the packets have no end"))
    }

    /// Hands a packet to its receiver.
    fn hand(&mut self, alloc: Global, to: u32, packet: Packet) -> Result<(), Fail>
        requires sound { AreSound self.old.one self.old.two self.old.three }
        ensures { AreSound self.new.one self.new.two self.new.three }
    {
        if to > 0 {
            if !is_heard(&packet) {
                return Err(Fail::new("a packet that no run brings"));
            }
            return self.step(alloc, to, Input::Sent(packet));
        }
        if let Some(answer) = answer_in(packet) {
            self.answers.push(answer)?;
        }
        Ok(())
    }

    /// What was kept back is on its way again.
    pub fn give_back(&mut self) -> Result<(), Fail>
        requires sound { AreSound self.old.one self.old.two self.old.three }
        ensures { AreSound self.new.one self.new.two self.new.three }
    {
        move_all(&mut self.kept, &mut self.mail)
    }

    /// Delivers packets until the next one is a Remote, which is lost.
    pub fn to_the_remote(&mut self, alloc: Global) -> Result<(), Fail>
        requires sound { AreSound self.old.one self.old.two self.old.three }
        ensures { AreSound self.new.one self.new.two self.new.three }
    {
        'mail: for _ in 0..1000 {
            let Some(packet) = self.mail.pop_front() else {
                return Err(Fail::new("no Remote is sent"));
            };
            if is_remote(&packet) {
                return Ok(());
            }
            let to = receiver(&packet);
            self.hand(alloc, to, packet)?;
        }
        Err(Fail::new("the packets have no end"))
    }

    /// Peer 1 crashes: all packets are lost, and it is opened again with what was synced.
    pub fn crash(self, alloc: Global) -> Result<Net, Fail>
        requires sound { AreSound self.one self.two self.three }
        ensures { IfOk result (λ net. AreSound net.one net.two net.three) }
    {
        let one = node::open(alloc, 1, self.one.shut(), Pick::Synced)?;
        Ok(Net {
            one,
            two: self.two,
            three: self.three,
            mail: VecDeque::new(alloc),
            kept: self.kept,
            answers: self.answers,
        })
    }
}

/// What leaves is on its way.
fn post(mail: &mut VecDeque<Packet>, packets: Leaves) -> Result<(), Fail> {
    for leaving in packets.into_vec() {
        mail.push_back(leaving.packet)?;
    }
    Ok(())
}

/// All of these are moved behind those.
fn move_all(from: &mut VecDeque<Packet>, to: &mut VecDeque<Packet>) -> Result<(), Fail> {
    for _ in 0..from.len() {
        let Some(packet) = from.pop_front() else {
            return Ok(());
        };
        to.push_back(packet)?;
    }
    Ok(())
}
