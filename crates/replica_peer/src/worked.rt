//! What a leader makes of entries, ahead of their being applied.
ghost use Rattle.std.specs.Prelude.{◌≡◌, ℕ, List, map, Option, IfOk};
ghost use Rattle.std.specs.Option.{option_to_list};
ghost use Rattle.part_keys.specs.declared.proposal.Proposal.{Proposal as Item};
ghost use Rattle.part_rules.specs.Part.{Part};
ghost use Rattle.part_machine.specs.Machine.{IsMachine};
ghost use Rattle.chain_leader.specs.Rules.{Table};
ghost use Rattle.chain_leader.specs.Applying.{begun_with};
ghost use Rattle.replica_model.specs.declared.packet.Place.{Place as Sender};
ghost use Rattle.replica_state.specs.Leaving.{leaving_of};
ghost use Rattle.replica_peer.specs.Placed.{kinds_at};
ghost use Rattle.replica_peer.specs.Along.{IsWorked};
ghost use Rattle.replica_peer.specs.Peer.{home_in};
ghost use Rattle.replica_peer.specs.Worked.{row_in, entries_at, sent, sent_where};

use crate::placing::{Kind, Placing};
use chain_leader::{Letter, NewChain, back_of, beginning, told};
use kv_part::KeyStore;
use lists::NoMemory;
use part_keys::{ChainState, PartEntry, PrimeRec};
use part_machine::{Machine, PlacedEntries};
use part_rules::Applied;
use replica_model::Place;
use replica_state::{Leaves, Places, Writer, post};
use std::alloc::Global;
use std::collections::VecDeque;

/// What items do, ahead of their being applied: what leaves, what the rules send, the row of the table that begins with each entry,
/// and whether the leader is ready behind them.
#[derive(Drop)]
pub(crate) struct WorkedAhead {
    pub leaves: Leaves,
    pub rules: Vec<Letter>,
    pub begins: VecDeque<Option<(u64, ChainState)>>,
    pub ready: bool,
}

// The chain that begins, at a leader that is ready or not: its row and its letter.
fn parted(ready: bool, made: Option<NewChain>) -> (Option<(u64, ChainState)>, Option<Letter>)
    ensures row { result.0 ≡ row_in ready made }
    ensures letter { (t : Table) → option_to_list result.1 ≡ (begun_with ready t made).letters }
{
    let Some(NewChain { v, chain, letter }) = made else {
        return (None, None);
    };
    if !ready {
        return (None, None);
    }
    (Some((v, chain)), Some(letter))
}

impl WorkedAhead {
    // Nothing, behind what leaves already.
    fn nothing(alloc: Global, ready: bool, leaves: Leaves) -> WorkedAhead
        ensures leaves { result.leaves ≡ leaves }
        ensures rules { result.rules.items ≡ [] }
        ensures begins { result.begins.items ≡ [] }
        ensures ready { result.ready ≡ ready }
    {
        WorkedAhead {
            leaves,
            rules: Vec::new(alloc),
            begins: VecDeque::new(alloc),
            ready,
        }
    }

    ghost use Rattle.std.specs.Prelude.{◌≡◌, ℕ, List, [], ◌∷◌, ◌++◌, map, Option, OnOk};
    ghost use Rattle.std.specs.Option.{option_copied, option_to_list};
    ghost use Rattle.part_rules.specs.Part.{Part};
    ghost use Rattle.part_machine.specs.Machine.{IsMachine};
    ghost use Rattle.chain_leader.specs.Rules.{Table};
    ghost use Rattle.chain_leader.specs.Applying.{beginning_by, begun_with};
    ghost use Rattle.chain_leader.specs.Leading.{answers_of, started};
    ghost use Rattle.replica_model.specs.declared.packet.Place.{Place as Sender};
    ghost use Rattle.replica_model.specs.Letters.{packets_of};
    ghost use Rattle.replica_model.specs.Stepped.{Leaving as Left, leaving};
    ghost use Rattle.replica_state.specs.Leaving.{leaving_of};
    ghost use Rattle.replica_peer.specs.Along.{IsAlong};
    ghost use Rattle.replica_peer.specs.Peer.{home_in};
    ghost use Rattle.replica_peer.specs.Worked.{Sent, by_ready, row_in};
    ghost use Rattle.replica_peer.specs.declared.placing.Kind.{Kind as Sort};
    ghost use Rattle.replica_peer.specs.declared.placing.Kind.TheVariants as kind;

    // A no-op: where it is that of the leader's own term, the leader is ready, and sends itself a Resume. Refused for want of memory
    // alone.
    fn start(&mut self, own: bool) -> Result<(), NoMemory>
        ensures leaves { self.new.leaves ≡ self.old.leaves }
        ensures rules { OnOk result (self.new.rules.items ≡ self.old.rules.items ++ (started (by_ready self.old.ready) own).rules) }
        ensures begins { self.new.begins.items ≡ self.old.begins.items }
        ensures ready { OnOk result (self.new.ready ≡ (started (by_ready self.old.ready) own).leading.ready) }
    {
        if !own {
            return Ok(());
        }
        self.rules.push(Letter::Again(None))?;
        self.ready = true;
        Ok(())
    }

    // The answers of an entry leave: to its client, and to the sender of a Remote or a Fence, where the leader proposed it itself.
    // Refused for want of memory alone.
    fn answers(
        &mut self,
        alloc: Global,
        by: Writer,
        own: bool,
        sender: Option<Place>,
        entry: &PartEntry,
        said: &Applied,
    ) -> Result<(), NoMemory>
        ensures leaves { OnOk result (map leaving_of self.new.leaves ≡ map leaving_of self.old.leaves ++ map leaving (packets_of by.part by.me by.term (λ v. 0) sender (answers_of own entry.now said.now))) }
        ensures rules { self.new.rules.items ≡ self.old.rules.items }
        ensures begins { self.new.begins.items ≡ self.old.begins.items }
        ensures ready { self.new.ready ≡ self.old.ready }
    {
        let none = Places::new(alloc);
        post(by, &none, sender, told(entry, said), &mut self.leaves)?;
        if own {
            post(by, &none, sender, back_of(entry, said), &mut self.leaves)?;
        }
        Ok(())
    }

    // What the rules make of an entry: the row of the chain that begins, and its letter. Refused for want of memory alone.
    fn begin(
        &mut self,
        alloc: Global,
        term: u64,
        said: &Applied,
        begun: Option<&PrimeRec>,
    ) -> Result<(), NoMemory>
        ensures leaves { self.new.leaves ≡ self.old.leaves }
        ensures rules { (t : Table) → OnOk result (self.new.rules.items ≡ self.old.rules.items ++ (begun_with self.old.ready t (beginning_by term said.now (option_copied begun.entry))).letters) }
        ensures begins { OnOk result (self.new.begins.items ≡ self.old.begins.items ++ row_in self.old.ready (beginning_by term said.now (option_copied begun.entry)) ∷ []) }
        ensures ready { self.new.ready ≡ self.old.ready }
    {
        let made = beginning(alloc, term, said, begun)?;
        let (row, letter) = parted(self.ready, made);
        self.begins.push_back(row)?;
        if let Some(letter) = letter {
            self.rules.push(letter)?;
        }
        Ok(())
    }

    // The next entry, by its plan. Refused for want of memory alone.
    fn entry<S: KeyStore>(
        &mut self,
        alloc: Global,
        by: Writer,
        of: u64,
        sender: Option<Place>,
        machine: &Machine<S>,
        placed: &PlacedEntries,
    ) -> Result<(), NoMemory>
        requires { by.part ≡ machine.now.setting.part }
        ensures { (senders : ℕ → Option Sender) (p : Part) (before : List Left) (all : Sent) (rest : List Sort) → IsMachine S.meaning S.has_place p placed.now machine.now
            → IsAlong (home_in machine.now.setting) by.me by.term senders p placed.now before all (kind.Entry of sender ∷ rest) self.old
            → OnOk result (IsAlong (home_in machine.now.setting) by.me by.term senders p placed.now before all rest self.new) }
    {
        let place = self.begins.len();
        let Some(entry) = placed.as_slice().get(place) else {
            return Ok(());
        };
        let Some(said) = machine.answer(place) else {
            return Ok(());
        };
        self.answers(alloc, by, of == by.term, sender, &entry.1, said)?;
        self.begin(alloc, by.term, said, machine.begun(place))
    }

    // The next item. Refused for want of memory alone.
    fn item<S: KeyStore>(
        &mut self,
        alloc: Global,
        by: Writer,
        kind: Kind,
        machine: &Machine<S>,
        placed: &PlacedEntries,
    ) -> Result<(), NoMemory>
        requires { by.part ≡ machine.now.setting.part }
        ensures { (senders : ℕ → Option Sender) (p : Part) (before : List Left) (all : Sent) (rest : List Sort) → IsMachine S.meaning S.has_place p placed.now machine.now
            → IsAlong (home_in machine.now.setting) by.me by.term senders p placed.now before all (kind ∷ rest) self.old
            → OnOk result (IsAlong (home_in machine.now.setting) by.me by.term senders p placed.now before all rest self.new) }
    {
        match kind {
            Kind::Start(of) => self.start(of == by.term),
            Kind::Entry(of, sender) => self.entry(alloc, by, of, sender, machine, placed),
            Kind::Quiet => Ok(()),
        }
    }
}

// What a leader makes of what is committed, ahead of its being applied: the machine has reserved the entries, and `ready` tells
/// whether the leader is ready before them. The answers leave behind what leaves already. Refused for want of memory alone.
fn work_ahead<S: KeyStore>(
    alloc: Global,
    by: Writer,
    ready: bool,
    machine: &Machine<S>,
    placing: &Placing,
    leaves: Leaves,
) -> Result<WorkedAhead, NoMemory>
    requires { by.part ≡ machine.now.setting.part }
    ensures { (senders : ℕ → Option Sender) (p : Part) (first : ℕ) (items : List (ℕ × Item)) → IsMachine S.meaning S.has_place p placing.now.entries machine.now
        → placing.now.entries ≡ entries_at first items → placing.now.kinds.items ≡ kinds_at senders first items
        → IfOk result (λ made. IsWorked (map leaving_of leaves) (sent (home_in machine.now.setting) by.me by.term senders p ready first items) made) }
{
    let mut made = WorkedAhead::nothing(alloc, ready, leaves);
    for kind in placing.kinds.as_slice() {
        made.item(alloc, by, *kind, machine, &placing.entries)?;
    }
    Ok(made)
}

/// The same where the replica leads behind the step; at another role nothing.
pub(crate) fn work_where<S: KeyStore>(
    alloc: Global,
    by: Writer,
    leads: bool,
    ready: bool,
    machine: &Machine<S>,
    placing: &Placing,
    leaves: Leaves,
) -> Result<WorkedAhead, NoMemory>
    requires { by.part ≡ machine.now.setting.part }
    ensures { (senders : ℕ → Option Sender) (p : Part) (first : ℕ) (items : List (ℕ × Item)) → IsMachine S.meaning S.has_place p placing.now.entries machine.now
        → placing.now.entries ≡ entries_at first items → placing.now.kinds.items ≡ kinds_at senders first items
        → IfOk result (λ made. IsWorked (map leaving_of leaves) (sent_where leads (home_in machine.now.setting) by.me by.term senders p ready first items) made) }
{
    if leads {
        work_ahead(alloc, by, ready, machine, placing, leaves)
    } else {
        Ok(WorkedAhead::nothing(alloc, ready, leaves))
    }
}
