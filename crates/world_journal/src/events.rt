//! The events of a journal.
use lists::NoMemory;
use std::alloc::Global;
use std::marker::Model;
use world_model::Event;

/// Events, in order. Contracts see the list, and for how many more there is room.
#[derive(Drop)]
pub struct Events {
    items: Vec<Event>,
}

impl Model for Events {
    ghost use Rattle.std.specs.Prelude.{ℕ, List, ◌-◌, vec_len, vec_capacity};
    ghost use Rattle.std.specs.Coded.{coded_list, coded×, coded_ℕ};
    ghost use Rattle.world_model.specs.declared.event.Event.{Event};
    ghost use Rattle.world_model.specs.contracts.event.Event as event;

    ghost Value = { List Event × ℕ };

    ghost coded = { coded× (coded_list event.the_row.coded) coded_ℕ };

    ghost view = { λ a. (a.items.items, vec_capacity a.items - vec_len a.items) };
}

impl Events {
    ghost use Rattle.std.specs.Prelude.{◌≡◌, ◌<◌, ◌-◌, ◌≤◌, ◌++◌, ◌∷◌, [], length, OnOk};

    /// No event. It takes no memory until one is put in.
    pub fn new(alloc: Global) -> Events
        ensures { result.0 ≡ [] }
    {
        Events {
            items: Vec::new(alloc),
        }
    }

    /// How many there are.
    pub fn len(&self) -> usize
        ensures { result ≡ length self.now.0 }
    {
        self.items.len()
    }

    /// The events, in order.
    pub fn as_slice(&self) -> &[Event]
        ensures { result.now ≡ self.now.0 }
    {
        self.items.as_slice()
    }

    /// Room for one more. Refused for want of memory alone; the events stay, and no room is lost.
    pub fn reserve(&mut self) -> Result<(), NoMemory>
        ensures room { OnOk result (0 < self.new.1) }
        ensures spare { self.old.1 ≤ self.new.1 }
        ensures same { self.new.0 ≡ self.old.0 }
    {
        self.items.reserve(1)?;
        Ok(())
    }

    /// One event more, for which there is room.
    pub fn push(&mut self, event: Event)
        requires room { 0 < self.old.1 }
        ensures events { self.new.0 ≡ self.old.0 ++ event ∷ [] }
        ensures spare { self.old.1 - 1 ≤ self.new.1 }
    {
        match self.items.push(event) {
            Ok(()) => {}
            Err(_) => unreachable!(),
        }
    }
}
