//! What a part keeps of its clients.
use first_graph::CallId;
use lists::NoMemory;
use std::alloc::Global;
use std::collections::BTreeMap;
use std::marker::Model;

/// How far the last call of a client is.
#[derive(Clone, Copy)]
pub enum Outcome {
    /// Its chain is under way.
    Open,
    /// It is done.
    Fine,
    /// The edge was there, and the call left it.
    Skipped,
    /// This other call had a chain under way on the edge.
    Conflict(CallId),
}

/// The last call of a client, and how far it is.
#[derive(Clone, Copy)]
pub struct Kept {
    /// The number of the call.
    pub number: u64,
    /// How far it is.
    pub outcome: Outcome,
}

impl Kept {
    ghost use Rattle.std.specs.Prelude.{◌≡◌};
    ghost use Rattle.first_part.specs.Kept.{settled};

    /// Its outcome once the call of this number is settled.
    fn settled(&self, number: u64) -> Outcome
        ensures { result ≡ (settled number self.now).outcome }
    {
        if self.number == number {
            Outcome::Fine
        } else {
            self.outcome
        }
    }
}

/// Of each client its last call; contracts see the finite map.
#[derive(Drop)]
pub struct Clients {
    kept: BTreeMap<u32, Kept>,
}

impl Model for Clients {
    ghost use Rattle.std.specs.FinMap as map;
    ghost use Rattle.std.specs.Ordering.{nat_cmp};
    ghost use Rattle.std.specs.Coded.{coded_ℕ};
    ghost use Rattle.first_part.specs.declared.clients.Kept.{Kept};
    ghost use Rattle.first_part.specs.contracts.clients.Kept as value;

    ghost Value = { map.FinMap nat_cmp Kept };

    ghost coded = { map.code coded_ℕ value.the_row.coded };

    ghost view = { λ a. map.from_entries a.kept.entries };
}

impl Clients {
    ghost use Rattle.std.specs.Prelude.{◌≡◌, OnOk, OnErr};
    ghost use Rattle.std.specs.Option.{option_copied};
    ghost use Rattle.std.specs.FinMap as map;
    ghost use Rattle.first_part.specs.Kept.{settled};
    ghost use Rattle.first_graph.specs.Maps.{altered};

    /// Nothing is kept of anyone; without memory.
    pub fn new(alloc: Global) -> Self
        ensures { result ≡ map.empty }
    {
        Clients {
            kept: BTreeMap::new(alloc),
        }
    }

    /// What is kept of a client.
    pub fn get(&self, client: u32) -> Option<&Kept>
        ensures { option_copied result ≡ map.get self.now client }
    {
        self.kept.get(&client)
    }

    /// Keeps the last call of a client. Refused for want of memory alone, and then all is as it was.
    pub fn keep(&mut self, client: u32, kept: Kept) -> Result<(), NoMemory>
        ensures ok { OnOk result (self.new ≡ map.insert self.old client kept) }
        ensures err { OnErr result (self.new ≡ self.old) }
    {
        self.kept.insert(client, kept)?;
        Ok(())
    }

    /// The call is settled: where it is the client's last one, its outcome is Fine now.
    pub fn settle(&mut self, id: CallId)
        ensures { self.new ≡ altered self.old id.client (settled id.number) }
    {
        let Some(kept) = self.kept.get_mut(&id.client) else {
            return;
        };
        let outcome = kept.settled(id.number);
        kept.outcome = outcome;
    }
}
