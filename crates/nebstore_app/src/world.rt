//! The world of this stage.
ghost use Rattle.std.specs.Prelude.{◌≡◌, ◌<◌, ◌∷◌, [], ◌++◌, ◌^◌, OnOk, vec_len, vec_capacity};
ghost use Rattle.nebstore_app.specs.World.{due_after};

use crate::due::Due;
use crate::event::Event;
use crate::journal::Journal;
use crate::mail::Mail;
use crate::replica::Replica;
use first_graph::{Answer, CallId, Op};
use lists::{Listed, NoMemory};
use std::alloc::Global;
use std::marker::Model;

/// The client of this stage.
const CLIENT: u32 = 1;

/// Two parts of one replica each, one client, and the packets between them.
#[derive(Drop)]
pub(crate) struct World {
    first: Replica,
    second: Replica,
    mail: Mail,
    last: u64,
    calling: bool,
    due: Option<Due>,
    events: Vec<Event>,
}

impl Model for World {
    ghost use Rattle.std.specs.Coded.{coded_list, coded_option};
    ghost use Rattle.nebstore_app.specs.World.{World};
    ghost use Rattle.nebstore_app.specs.WorldCode.{world_code};
    ghost use Rattle.nebstore_app.specs.contracts.replica.Replica as replicas;
    ghost use Rattle.nebstore_app.specs.contracts.packet.Packet as packet;
    ghost use Rattle.nebstore_app.specs.contracts.due.Due as dues;
    ghost use Rattle.nebstore_app.specs.contracts.event.Event as event;

    ghost Value = { World };

    ghost coded = { world_code replicas.the_row.coded (coded_list packet.the_row.coded) (coded_option dues.the_row.coded) (coded_list event.the_row.coded) };

    ghost view = { λ a. record { first = a.first; second = a.second; passed = a.mail.passed; waiting = a.mail.waiting; last = a.last; calling = a.calling; due = a.due; events = a.events.items } };
}

impl World {
    ghost use Rattle.std.specs.Prelude.{◌≡◌, ◌<◌, ◌++◌, false, length, IsSome, IfOk, OnOk, OnErr, IsTrue, ◌↔◌, Some};
    ghost use Rattle.std.specs.Option.{option_copied};
    ghost use Rattle.nebstore_app.specs.Packets.{request_of};
    ghost use Rattle.first_graph.specs.declared.call_id.CallId.{CallId};
    ghost use Rattle.nebstore_app.specs.Calls.{IsQuiet, HasCalled, HasStopped};
    ghost use Rattle.nebstore_app.specs.World.{start, after, next_call, last_call, answer_due, IsReached};
    ghost use Rattle.nebstore_app.specs.declared.event.Event.TheVariants.{Invoke, Deliver, Reply};

    /// The world before anything happened; without memory.
    pub fn new(alloc: Global) -> World
        ensures { result ≡ start }
    {
        World {
            first: Replica::new(alloc),
            second: Replica::new(alloc),
            mail: Mail::new(alloc),
            last: 0,
            calling: false,
            due: None,
            events: Vec::new(alloc),
        }
    }

    /// The client's next call begins. Refused for want of memory alone, and then all is as it was.
    pub fn invoke(&mut self, alloc: Global, op: Op) -> Result<(), NoMemory>
        requires reached { IsReached self.old }
        requires served { IsSome (request_of (next_call self.old) op) }
        ensures ok { OnOk result (self.new ≡ after self.old (Invoke (next_call self.old) op)) }
        ensures err { OnErr result (self.new ≡ self.old) }
    {
        reserve(&mut self.events)?;
        self.mail.reserve()?;
        let id = CallId {
            client: CLIENT,
            number: self.last + 1,
        };
        let Some(request) = crate::packet::request_of(alloc, id, &op)? else {
            unreachable!();
        };
        self.mail.send(request);
        self.last = id.number;
        self.calling = true;
        note(&mut self.events, Event::Invoke(id, op));
        Ok(())
    }

    /// The first packet under way comes. Refused for want of memory alone, and then all is as it was.
    pub fn deliver(&mut self, alloc: Global) -> Result<(), NoMemory>
        requires { 0 < length self.old.waiting }
        ensures ok { OnOk result (self.new ≡ after self.old (Deliver (length self.old.passed))) }
        ensures err { OnErr result (self.new ≡ self.old) }
    {
        reserve(&mut self.events)?;
        self.mail.reserve()?;
        let number = self.mail.count();
        let Some(packet) = self.mail.first() else {
            unreachable!();
        };
        match packet.entry(alloc)? {
            Some((part, entry)) => {
                let from = packet.from;
                let sent = if part == 1 {
                    self.first.apply(alloc, part, from, entry)?
                } else {
                    self.second.apply(alloc, part, from, entry)?
                };
                self.mail.advance();
                if let Some(sent) = sent {
                    self.mail.send(sent);
                }
            }
            None => {
                let answer = packet.answer(alloc)?;
                self.mail.advance();
                tell(&mut self.due, self.calling, self.last, number, answer);
            }
        }
        note(&mut self.events, Event::Deliver(number));
        Ok(())
    }

    /// The client's open call is over; gives its answer. Refused for want of memory alone, and then all is as it was.
    pub fn reply(&mut self, alloc: Global) -> Result<Answer, NoMemory>
        requires { IsSome (answer_due self.old) }
        ensures answer { IfOk result (λ answer. answer_due self.old ≡ Some answer) }
        ensures ok { IfOk result (λ answer. self.new ≡ after self.old (Reply (last_call self.old) answer)) }
        ensures err { OnErr result (self.new ≡ self.old) }
    {
        reserve(&mut self.events)?;
        let Some(due) = &self.due else {
            unreachable!();
        };
        let told = due.answer.copy(alloc)?;
        let answer = due.answer.copy(alloc)?;
        let id = CallId {
            client: CLIENT,
            number: self.last,
        };
        self.due = None;
        self.calling = false;
        note(&mut self.events, Event::Reply(id, told));
        Ok(answer)
    }

    /// The client makes its next call, and the packets go on until it is answered. Refused for want of memory alone:
    /// then the call may be made or not, and isn't answered.
    pub fn call(&mut self, alloc: Global, op: Op) -> Result<Answer, NoMemory>
        requires quiet { IsQuiet self.old }
        requires served { (id : CallId) → IsSome (request_of id op) }
        ensures called { IfOk result (HasCalled self.old self.new op) }
        ensures stopped { OnErr result (HasStopped self.old self.new op) }
    {
        self.invoke(alloc, op)?;
        while self.is_busy() {
            self.deliver(alloc)?;
        }
        self.reply(alloc)
    }

    /// What happened, as a journal.
    pub fn into_journal(self) -> Journal
        ensures events { result.events ≡ self.events }
        ensures packets { result.packets ≡ self.passed ++ self.waiting }
    {
        Journal {
            events: Listed::from_vec(self.events),
            packets: self.mail.into_packets(),
        }
    }

    /// Whether a packet is under way.
    pub fn is_busy(&self) -> bool
        ensures { IsTrue result ↔ (0 < length self.now.waiting) }
    {
        self.mail.first().is_some()
    }
}

/// The client is told the answer that a packet brings, where it is for the open call and is the first.
fn tell(due: &mut Option<Due>, calling: bool, last: u64, packet: u64, answer: Option<(u64, Answer)>)
    ensures { due.new ≡ due_after calling last due.old packet answer }
{
    let Some((number, answer)) = answer else {
        return;
    };
    if calling && due.is_none() && number == last {
        *due = Some(Due { packet, answer });
    }
}

/// Makes room for one more event.
fn reserve(events: &mut Vec<Event>) -> Result<(), NoMemory>
    ensures room { OnOk result (vec_len events.new < vec_capacity events.new) }
    ensures same { events.new.items ≡ events.old.items }
    ensures fits { vec_len events.old < 2 ^ 63 }
{
    events.reserve(1)?;
    Ok(())
}

/// Adds an event, for which there is room.
fn note(events: &mut Vec<Event>, event: Event)
    requires { vec_len events.old < vec_capacity events.old }
    ensures { events.new.items ≡ events.old.items ++ event ∷ [] }
{
    match events.push(event) {
        Ok(()) => {}
        Err(_) => unreachable!(),
    }
}
