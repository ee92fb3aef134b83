//! What is committed, for the machine and for a leader.
ghost use Rattle.std.specs.Prelude.{◌≡◌, ◌+◌, ◌<◌, ◌^◌, length, IfOk};
ghost use Rattle.replica_state.specs.Places.{held};
ghost use Rattle.replica_peer.specs.Placed.{senders_behind, kinds_at};
ghost use Rattle.replica_peer.specs.Worked.{entries_at};

use lists::{Listed, NoMemory};
use part_keys::{PartEntry, Proposal};
use part_machine::PlacedEntries;
use replica_model::Place;
use replica_state::{Places, at};
use std::alloc::Global;

/// What an item of the log is to a leader, but for its entry: a no-op of a term, an entry of a term with its sender, or nothing.
#[derive(Clone, Copy)]
pub(crate) enum Kind {
    Start(u64),
    Entry(u64, Option<Place>),
    Quiet,
}

/// Items, parted: the entries, each at its index, and the kind of each item.
#[derive(Drop)]
pub(crate) struct Placing {
    pub entries: PlacedEntries,
    pub kinds: Vec<Kind>,
}

impl Placing {
    ghost use Rattle.std.specs.Prelude.{◌≡◌, ◌++◌, [], ◌∷◌, OnOk};
    ghost use Rattle.replica_peer.specs.Placed.{kind_of};
    ghost use Rattle.replica_peer.specs.Worked.{and_entry};

    // One item more. Refused for want of memory alone.
    fn add(
        &mut self,
        index: u64,
        term: u64,
        item: Proposal,
        sender: Option<Place>,
    ) -> Result<(), NoMemory>
        ensures entries { OnOk result (self.new.entries ≡ self.old.entries ++ and_entry index item []) }
        ensures kinds { OnOk result (self.new.kinds.items ≡ self.old.kinds.items ++ kind_of sender term item ∷ []) }
    {
        match item {
            Proposal::Start => self.kinds.push(Kind::Start(term))?,
            Proposal::Members(_) => self.kinds.push(Kind::Quiet)?,
            Proposal::Made(entry) => {
                self.entries.push((index, entry))?;
                self.kinds.push(Kind::Entry(term, sender))?;
            }
            Proposal::Blank => self.kinds.push(Kind::Quiet)?,
        }
        Ok(())
    }
}

// The sender of the entry at an index, at a leader that leads on or not, where one was appended with this sender.
fn sender_at(
    senders: &Places<Place>,
    on: bool,
    appended: Option<(u64, Place)>,
    index: u64,
) -> Option<Place>
    ensures { result ≡ senders_behind on appended (held senders.now.entries) index }
{
    if !on {
        return None;
    }
    let Some((last, sender)) = appended else {
        return at(senders, index);
    };
    if index == last {
        return Some(sender);
    }
    at(senders, index)
}

/// Parts what is committed, the first item at this index: `on` tells whether the leader leads on, and `appended` the sender of the
/// entry that the step appends. Refused for want of memory alone.
pub(crate) fn place_all(
    alloc: Global,
    items: Vec<(u64, Proposal)>,
    first: u64,
    senders: &Places<Place>,
    on: bool,
    appended: Option<(u64, Place)>,
) -> Result<Placing, NoMemory>
    requires { first + length items.items < 2 ^ 64 }
    ensures entries { IfOk result (λ made. made.entries ≡ entries_at first items.items) }
    ensures kinds { IfOk result (λ made. made.kinds.items ≡ kinds_at (senders_behind on appended (held senders.now.entries)) first items.items) }
{
    let mut made = Placing {
        entries: Listed::new(alloc),
        kinds: Vec::new(alloc),
    };
    let mut index = first;
    for (term, item) in items {
        let sender = sender_at(senders, on, appended, index);
        made.add(index, term, item, sender)?;
        index += 1;
    }
    Ok(made)
}
