//! A leader of a part.
ghost use Rattle.std.specs.Prelude.{◌≡◌, ◌<◌, [], ◌∷◌, if◌then◌else◌};
ghost use Rattle.std.specs.Option.{option_to_list};
ghost use Rattle.part_keys.specs.Routing.{is_payload};
ghost use Rattle.part_rules.specs.Part.{Part};
ghost use Rattle.part_rules.specs.View.{view};
ghost use Rattle.graph_model.specs.declared.answer.Answer.TheVariants.{Shown};
ghost use Rattle.graph_model.specs.declared.query.Query.{Query};
ghost use Rattle.chain_leader.specs.Calls.{is_write};
ghost use Rattle.chain_leader.specs.Leading.{read};

use crate::ahead::{ItemAhead, item_ahead};
use crate::answers::{chain_at, is_write};
use crate::body::ChainBody;
use crate::item_letters::ItemLetters;
use crate::letter::Letter;
use crate::resuming::{TakenUp, go_further, resumptions, rows_for, take_up_all};
use crate::rules::{give_up, on_fence, on_remote};
use crate::table::ChainTable;
use graph_model::{Answer, CallId, View};
use lists::{Listed, NoMemory};
use part_keys::{ChainState, PartEntry, Policy, PrimeRec, Proposal, VidKind, is_payload};
use part_rules::Applied;
use std::alloc::Global;

/// A leader: whether it has applied its own no-op, its policy, and the chains that it knows.
#[derive(Drop)]
pub struct Leader {
    pub ready: bool,
    pub policy: Policy,
    pub table: ChainTable,
}

impl Leader {
    ghost use Rattle.std.specs.Prelude.{◌≡◌, ◌==◌, ◌≤◌, ◌<◌, ◌-◌, ℕ, Option, false, [], ◌++◌, map, length, OnOk, OnErr, IfOk, IfSome};
    ghost use Rattle.std.specs.Option.{option_copied, option_to_list};
    ghost use Rattle.part_keys.specs.declared.vid_kind.VidKind.{VidKind};
    ghost use Rattle.part_rules.specs.Part.{Part};
    ghost use Rattle.chain_leader.specs.declared.body.ChainBody.TheVariants as says;
    ghost use Rattle.chain_leader.specs.Leading.{idle, given_up, pulsed, taken, forgetting, on_item};
    ghost use Rattle.chain_leader.specs.Leader.{leads, is_resume, StandsBehind};
    ghost use Rattle.chain_leader.specs.Resuming.{AreStanding, row_for, all_taken_up, resumed_by};
    ghost use Rattle.chain_leader.specs.Applying.{IsBehind, back_by, told_by, with_row};

    /// A replica that doesn't lead.
    pub fn idle(alloc: Global) -> Self
        ensures { leads result ≡ idle }
    {
        Leader {
            ready: false,
            policy: Policy::Forward,
            table: ChainTable::new(alloc),
        }
    }

    /// A call is given up.
    pub fn given_up(&mut self, id: CallId) -> Option<PartEntry>
        ensures leading { leads self.new ≡ (given_up (leads self.old) id).leading }
        ensures room { self.new.table.1 ≡ self.old.table.1 }
        ensures proposed { option_to_list result ≡ (given_up (leads self.old) id).proposals }
    {
        if !self.ready {
            return None;
        }
        give_up(&mut self.table, id)
    }

    /// What a pulse sends.
    pub fn pulsed(&self) -> Option<Letter>
        ensures { option_to_list result ≡ pulsed (leads self.now) }
    {
        if self.ready {
            Some(Letter::Again(None))
        } else {
            None
        }
    }

    /// A leader of this term is told, as one of that term, that the in-halves of a chain are written.
    pub fn done(&mut self, term: u64, of: u64, v: u64) -> Option<PartEntry>
        ensures leading { (ids : VidKind) (parts part from : ℕ) (machine : Part) → leads self.new ≡ (taken ids parts part term machine (leads self.old) (says.Done of v) from).leading }
        ensures room { self.new.table.1 ≡ self.old.table.1 }
        ensures proposed { (ids : VidKind) (parts part from : ℕ) (machine : Part) → option_to_list result ≡ (taken ids parts part term machine (leads self.old) (says.Done of v) from).proposals }
    {
        if !self.ready {
            return None;
        }
        if of != term {
            return None;
        }
        on_remote(&mut self.table, v)
    }

    /// A leader of this term is told, as one of that term, whether a chain wrote its in-halves.
    pub fn fenced(&mut self, term: u64, of: u64, v: u64, written: bool) -> Option<PartEntry>
        ensures leading { (ids : VidKind) (parts part from : ℕ) (machine : Part) → leads self.new ≡ (taken ids parts part term machine (leads self.old) (says.Fenced of v written) from).leading }
        ensures room { self.new.table.1 ≡ self.old.table.1 }
        ensures proposed { (ids : VidKind) (parts part from : ℕ) (machine : Part) → option_to_list result ≡ (taken ids parts part term machine (leads self.old) (says.Fenced of v written) from).proposals }
    {
        if !self.ready {
            return None;
        }
        if of != term {
            return None;
        }
        on_fence(&mut self.table, v, written)
    }

    /// An item that was looked at ahead is applied: the chain that it may end is forgotten, where its record is gone, and the row
    /// of the chain that begins is added. It takes no memory.
    pub fn goes_on(&mut self, ends: Option<u64>, stands: bool, begins: Option<(u64, ChainState)>)
        requires { IfSome begins (λ _. 0 < self.old.table.1) }
        ensures leading { (behind : Part) → StandsBehind behind ends stands → leads self.new ≡ record (leads self.old) { table = with_row (forgetting self.old.table.0 behind ends) begins } }
        ensures room { self.old.table.1 - 1 ≤ self.new.table.1 }
    {
        if let Some(v) = ends {
            if !stands {
                self.table.forget(v);
            }
        }
        if let Some((v, chain)) = begins {
            self.table.add(v, chain);
        }
    }

    /// What a leader of that term makes of an item of the term `of` when it applies it: `said` is the item's answer, `begun` the
    /// record of the chain that it began, and `stands` tells whether the chain that it may end stands behind it. Refused for
    /// want of memory alone, and then all is as before.
    pub fn on_item(
        &mut self,
        alloc: Global,
        term: u64,
        of: u64,
        item: &Proposal,
        said: &Applied,
        begun: Option<&PrimeRec>,
        stands: bool,
    ) -> Result<ItemLetters, NoMemory>
        ensures leading { (parts index : ℕ) (machine : Part) → IsBehind parts index item.now machine said.now (option_copied begun.entry) stands → OnOk result (leads self.new ≡ (on_item parts term machine (leads self.old) index (of, item.now)).leading) }
        ensures answers { (parts index : ℕ) (machine : Part) → IsBehind parts index item.now machine said.now (option_copied begun.entry) stands → IfOk result (λ sent. option_to_list sent.told ++ option_to_list sent.back ≡ (on_item parts term machine (leads self.old) index (of, item.now)).answers) }
        ensures told { IfOk result (λ sent. option_to_list sent.told ≡ told_by item.now said.now) }
        ensures back { IfOk result (λ sent. option_to_list sent.back ≡ back_by (of == term) item.now said.now) }
        ensures rules { (parts index : ℕ) (machine : Part) → IsBehind parts index item.now machine said.now (option_copied begun.entry) stands → IfOk result (λ sent. option_to_list sent.rule ≡ (on_item parts term machine (leads self.old) index (of, item.now)).rules) }
        ensures err { OnErr result (leads self.new ≡ leads self.old) }
        ensures room { self.old.table.1 - 1 ≤ self.new.table.1 }
    {
        let ItemAhead {
            sent,
            begins,
            ready,
        } = item_ahead(alloc, self.ready, term, of, item, said, begun)?;
        self.table.reserve(1)?;
        self.ready = ready;
        self.goes_on(chain_at(item), stands, begins);
        Ok(sent)
    }

    /// What a leader of that term makes of a Resume of the term `of`: `standing` are the first chains that stand behind its
    /// place, 64 or all where there are fewer, and `more` tells whether more stand there. Refused for want of memory alone, and
    /// then all is as before.
    pub fn resumed(
        &mut self,
        alloc: Global,
        term: u64,
        of: u64,
        standing: &[PrimeRec],
        more: bool,
    ) -> Result<Listed<Letter>, NoMemory>
        ensures leading { (ids : VidKind) (parts part from : ℕ) (machine : Part) (after : Option ℕ) → AreStanding machine after standing.now more → OnOk result (leads self.new ≡ (taken ids parts part term machine (leads self.old) (says.Resume of after) from).leading) }
        ensures sent { (ids : VidKind) (parts part from : ℕ) (machine : Part) (after : Option ℕ) → AreStanding machine after standing.now more → IfOk result (λ letters. letters ≡ (taken ids parts part term machine (leads self.old) (says.Resume of after) from).letters) }
        ensures err { OnErr result (leads self.new ≡ leads self.old) }
        ensures room { self.old.table.1 - length standing.now ≤ self.new.table.1 }
    {
        if !self.ready {
            return Ok(Listed::new(alloc));
        }
        if of != term {
            return Ok(Listed::new(alloc));
        }
        let made = self.prepared(alloc, term, standing, more)?;
        self.table.reserve(made.rows.len())?;
        Ok(self.takes_up(made))
    }

    /// What a step of Resume takes, for a leader of that term. Refused for want of memory alone.
    pub fn prepared(
        &self,
        alloc: Global,
        term: u64,
        standing: &[PrimeRec],
        more: bool,
    ) -> Result<TakenUp, NoMemory>
        ensures letters { IfOk result (λ made. made.letters ≡ (resumed_by term (leads self.now) standing.now more).letters) }
        ensures rows { IfOk result (λ made. made.rows.items ≡ map (row_for self.now.policy) standing.now) }
    {
        let mut letters = resumptions(alloc, term, &self.table, standing, self.policy)?;
        go_further(&mut letters, standing, more)?;
        let rows = rows_for(alloc, standing, self.policy)?;
        Ok(TakenUp { letters, rows })
    }

    /// A step of Resume, where there is a spare row for each of its rows. It takes no memory.
    pub fn takes_up(&mut self, made: TakenUp) -> Listed<Letter>
        requires { length made.rows.items ≤ self.old.table.1 }
        ensures leading { leads self.new ≡ record (leads self.old) { table = all_taken_up made.rows.items self.old.table.0 } }
        ensures sent { result ≡ made.letters }
        ensures room { self.old.table.1 - length made.rows.items ≤ self.new.table.1 }
    {
        let TakenUp { letters, rows } = made;
        take_up_all(&mut self.table, rows);
        letters
    }

    /// What a leader of the part and term makes of what a packet from that part says, but for a Resume. It takes no
    /// memory.
    pub fn taken(
        &mut self,
        ids: VidKind,
        parts: u32,
        part: u32,
        term: u64,
        body: ChainBody,
        from: u32,
    ) -> Option<PartEntry>
        requires { (0 < parts) × (is_resume body ≡ false) }
        ensures leading { (machine : Part) → leads self.new ≡ (taken ids parts part term machine (leads self.old) body from).leading }
        ensures room { self.new.table.1 ≡ self.old.table.1 }
        ensures proposed { (machine : Part) → option_to_list result ≡ (taken ids parts part term machine (leads self.old) body from).proposals }
        ensures silent { (machine : Part) → (taken ids parts part term machine (leads self.old) body from).letters ≡ [] }
    {
        match body {
            ChainBody::Request(_, entry) => requested(ids, parts, part, entry),
            ChainBody::Answer(_, _) => None,
            ChainBody::NotLeader(_, _, _) => None,
            ChainBody::Remote(of, v, list) => proposing(
                ids,
                parts,
                part,
                PartEntry::Remote(from, of, v, list),
            ),
            ChainBody::Done(of, v) => self.done(term, of, v),
            ChainBody::Stale(_, _, _) => None,
            ChainBody::Fence(of, v, edges) => proposing(
                ids,
                parts,
                part,
                PartEntry::Fence(from, of, v, edges),
            ),
            ChainBody::Fenced(of, v, written) => self.fenced(term, of, v, written),
            ChainBody::Resume(_, _) => unreachable!(),
        }
    }
}

/// The entry of a client's call, where it writes, belongs to the part and may stand in its log.
fn requested(ids: VidKind, parts: u32, part: u32, entry: PartEntry) -> Option<PartEntry>
    requires { 0 < parts }
    ensures { option_to_list result ≡ (if is_write entry then (if is_payload ids parts part entry then entry ∷ [] else []) else []) }
{
    if is_write(&entry) {
        proposing(ids, parts, part, entry)
    } else {
        None
    }
}

/// The entry, where it belongs to the part and may stand in its log.
fn proposing(ids: VidKind, parts: u32, part: u32, entry: PartEntry) -> Option<PartEntry>
    requires { 0 < parts }
    ensures { option_to_list result ≡ (if is_payload ids parts part entry then entry ∷ [] else []) }
{
    if is_payload(ids, parts, part, &entry) {
        Some(entry)
    } else {
        None
    }
}

/// The answer of a read: what its query finds in the part.
pub fn read(found: View) -> Answer
    ensures shown { result ≡ Shown found }
    ensures read { (machine : Part) (query : Query) → found ≡ view query machine → result ≡ read machine query }
{
    Answer::Shown(found)
}
