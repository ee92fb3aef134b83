//! A journal.
ghost use Rattle.std.specs.Prelude.{◌≡◌};
ghost use Rattle.world_journal.specs.Ends as ends;

use crate::events::Events;
use lists::NoMemory;
use std::alloc::Global;
use world_mail::{Mail, Packets};
use world_model::{Cause, Event};

/// The events, and the packets that they sent, numbered from 0.
#[derive(Drop)]
pub struct Journal {
    pub events: Events,
    pub packets: Mail,
}

// The number of the packet that was delivered or lost with the event.
fn ended_by(event: &Event) -> Option<u64>
    ensures { result ≡ ends.ended_by event.now }
{
    match event {
        Event::Deliver(number) => Some(*number),
        Event::Lose(number) => Some(*number),
        Event::StepCrash(_, _, Cause::Sent(number)) => Some(*number),
        _ => None,
    }
}

impl Journal {
    ghost use Rattle.std.specs.Prelude.{◌≡◌, ◌<◌, ◌≤◌, ◌-◌, ◌++◌, ◌∷◌, [], List, length, OnOk};
    ghost use Rattle.world_model.specs.declared.event.Event.{Event as Happening};
    ghost use Rattle.world_model.specs.Journal.{Codec};
    ghost use Rattle.world_model.specs.Lawful.{Lawful, all_below};
    ghost use Rattle.world_model.specs.Local.{sends_by};
    ghost use Rattle.world_model.specs.State.{Space, State};
    ghost use Rattle.world_model.specs.After.{after};
    ghost use Rattle.world_mail.specs.Sent.{fresh, lowest};
    ghost use Rattle.world_journal.specs.Ends.{ended_in};
    ghost use Rattle.world_journal.specs.Shows.{HasRoom, Shows, Spells};

    /// No event and no packet. It takes no memory until an event is noted.
    pub fn new(alloc: Global) -> Journal
        ensures events { result.events.0 ≡ [] }
        ensures packets { result.packets.0 ≡ [] }
    {
        Journal {
            events: Events::new(alloc),
            packets: Mail::new(alloc),
        }
    }

    /// Room for one event that sends so many packets. Refused for want of memory alone; the journal stays, and no room is lost.
    pub fn reserve(&mut self, packets: usize) -> Result<(), NoMemory>
        ensures room { OnOk result (HasRoom self.new packets) }
        ensures events { self.new.events.0 ≡ self.old.events.0 }
        ensures packets { self.new.packets.0 ≡ self.old.packets.0 }
        ensures spare { (self.old.events.1 ≤ self.new.events.1) × (self.old.packets.1 ≤ self.new.packets.1) }
    {
        self.events.reserve()?;
        self.packets.reserve(packets)
    }

    /// An event and the packets that it sends, for which there is room. The packet that it delivers or loses is done. It takes no
    /// memory.
    pub fn note(&mut self, event: Event, packets: Packets)
        requires room { HasRoom self.old (length packets) }
        ensures events { self.new.events.0 ≡ self.old.events.0 ++ event ∷ [] }
        ensures packets { self.new.packets.0 ≡ ended_in (ends.ended_by event) self.old.packets.0 ++ fresh packets }
        ensures spare { (self.old.events.1 - 1 ≤ self.new.events.1) × (self.old.packets.1 - 1 ≤ self.new.packets.1) }
        ensures shows { (codec : Codec) (sp : Space) (s : State) → Shows codec self.old.packets.0 s → Lawful sp s event
            → Spells codec packets (sends_by sp s event) → Shows codec self.new.packets.0 (after sp s event) }
    {
        self.end(ended_by(&event));
        self.packets.send(packets);
        self.events.push(event);
    }

    // The packet that an event ended, if it ended one, is done.
    fn end(&mut self, ended: Option<u64>)
        ensures events { self.new.events ≡ self.old.events }
        ensures packets { self.new.packets.0 ≡ ended_in ended self.old.packets.0 }
        ensures spare { self.old.packets.1 ≤ self.new.packets.1 }
    {
        let Some(number) = ended else {
            return;
        };
        let number = number as usize;
        if number < self.packets.len() {
            self.packets.mark(number);
        }
    }

    /// The lowest number of a packet that was neither delivered nor lost; none exactly where each was. It takes no memory.
    pub fn draw(&self) -> Option<usize>
        ensures { result ≡ lowest self.now.packets.0 }
    {
        self.packets.lowest()
    }

    /// Whether each packet was delivered or lost. It takes no memory.
    pub fn is_delivered(&self) -> bool
        ensures { (codec : Codec) (s : State) → Shows codec self.now.packets.0 s → result ≡ all_below (length s.posts) s.done }
    {
        self.packets.lowest().is_none()
    }
}
