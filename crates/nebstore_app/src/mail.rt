//! The packets of a world.
use crate::packet::{Packet, Packets};
use lists::{Listed, NoMemory};
use std::alloc::Global;
use std::marker::Model;

/// All packets that were sent, of which the first ones came.
#[derive(Drop)]
pub(crate) struct Mail {
    packets: Vec<Packet>,
    taken: usize,
}

impl Model for Mail {
    ghost use Rattle.std.specs.Prelude.{◌≤◌, ◌-◌, take, drop, vec_len, vec_capacity};
    ghost use Rattle.std.specs.Coded.{coded_list};
    ghost use Rattle.nebstore_app.specs.Mail.{Mail, mail_code};
    ghost use Rattle.nebstore_app.specs.contracts.packet.Packet as packet;

    ghost Value = { Mail };

    ghost coded = { mail_code (coded_list packet.the_row.coded) };

    ghost view = { λ a. record { passed = take a.taken a.packets.items; waiting = drop a.taken a.packets.items; room = vec_capacity a.packets - vec_len a.packets } };

    ghost invariant = { λ a. a.taken ≤ vec_len a.packets };
}

impl Mail {
    ghost use Rattle.std.specs.Prelude.{◌≡◌, ◌<◌, [], ◌∷◌, ◌++◌, length, drop, slice_get, option_to_list, OnOk};
    ghost use Rattle.std.specs.Option.{option_copied};

    /// No packet; without memory.
    pub fn new(alloc: Global) -> Mail
        ensures passed { result.passed ≡ [] }
        ensures waiting { result.waiting ≡ [] }
    {
        Mail {
            packets: Vec::new(alloc),
            taken: 0,
        }
    }

    /// Makes room for one more packet. Refused for want of memory alone; the packets stay.
    pub fn reserve(&mut self) -> Result<(), NoMemory>
        ensures room { OnOk result (0 < self.new.room) }
        ensures passed { self.new.passed ≡ self.old.passed }
        ensures waiting { self.new.waiting ≡ self.old.waiting }
    {
        self.packets.reserve(1)?;
        Ok(())
    }

    /// The first packet under way.
    pub fn first(&self) -> Option<&Packet>
        ensures { option_copied result ≡ slice_get self.now.waiting 0 }
    {
        self.packets[self.taken..].first()
    }

    /// How many packets came.
    pub fn count(&self) -> u64
        ensures { result ≡ length self.now.passed }
    {
        self.taken as u64
    }

    /// Puts a packet under way, behind the others.
    pub fn send(&mut self, packet: Packet)
        requires { 0 < self.old.room }
        ensures passed { self.new.passed ≡ self.old.passed }
        ensures waiting { self.new.waiting ≡ self.old.waiting ++ packet ∷ [] }
    {
        match self.packets.push(packet) {
            Ok(()) => {}
            Err(_) => unreachable!(),
        }
    }

    /// The first packet under way has come.
    pub fn advance(&mut self)
        ensures passed { self.new.passed ≡ self.old.passed ++ option_to_list (slice_get self.old.waiting 0) }
        ensures waiting { self.new.waiting ≡ drop 1 self.old.waiting }
        ensures room { self.new.room ≡ self.old.room }
    {
        if self.taken < self.packets.len() {
            self.taken += 1;
        }
    }

    /// All packets, in the order in which they were sent.
    pub fn into_packets(self) -> Packets
        ensures { result ≡ self.passed ++ self.waiting }
    {
        Listed::from_vec(self.packets)
    }
}
