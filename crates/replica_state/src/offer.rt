//! What a leader's rules propose, before anything is taken.
ghost use Rattle.std.specs.Prelude.{◌≡◌, ◌==◌, ◌&&◌, ◌<◌, ℕ, false, IfSome, if◌then◌else◌};
ghost use Rattle.graph_bytes.specs.declared.id_form.IdForm.TheVariants.{Tagged};
ghost use Rattle.part_keys.specs.Fits.{HasSpelling};
ghost use Rattle.part_rules.specs.Part.{Part};
ghost use Rattle.chain_leader.specs.Calls.{is_write as is_write_of};
ghost use Rattle.chain_leader.specs.Leader.{leads, is_resume};
ghost use Rattle.chain_leader.specs.Leading as rules;
ghost use Rattle.chain_leader.specs.Rules as tables;
ghost use Rattle.replica_state.specs.Asked.{offered, offered_by};
ghost use Rattle.replica_state.specs.State.{IsHeardSaid, IsSourced};

use crate::asked::Rule;
use crate::whose::Whose;
use chain_leader::{ChainBody, ChainTable, Leader, is_write};
use graph_model::CallId;
use part_keys::{Mode, PartEntry, is_payload};

/// What a leader's rule proposes, if anything, and what then becomes of its table.
pub(crate) type Offer = Option<(PartEntry, Rule)>;

/// The in-halves of a chain are written.
fn on_remote(t: &ChainTable, v: u64) -> Offer
    ensures offered { offered_by t.now.0 result ≡ tables.on_remote t.now.0 v }
    ensures spelled { IfSome result (λ made. HasSpelling Tagged made.0) }
{
    let Some(chain) = t.get(v) else {
        return None;
    };
    if chain.asked {
        return None;
    }
    match chain.mode {
        Mode::Put => Some((PartEntry::Local(v), Rule::Asks(v))),
        Mode::Doubled => Some((PartEntry::Close(v), Rule::Asks(v))),
        Mode::Fence => None,
    }
}

/// It is known whether a chain wrote its in-halves.
fn on_fence(t: &ChainTable, v: u64, written: bool) -> Offer
    ensures offered { offered_by t.now.0 result ≡ tables.on_fence t.now.0 v written }
    ensures spelled { IfSome result (λ made. HasSpelling Tagged made.0) }
{
    let Some(chain) = t.get(v) else {
        return None;
    };
    if chain.asked {
        return None;
    }
    match chain.mode {
        Mode::Put => return None,
        Mode::Doubled => return None,
        Mode::Fence => {}
    }
    if written {
        Some((PartEntry::Local(v), Rule::Asks(v)))
    } else {
        Some((PartEntry::Abort(v), Rule::Asks(v)))
    }
}

/// A call is given up.
fn give_up(t: &ChainTable, id: CallId) -> Offer
    ensures offered { offered_by t.now.0 result ≡ tables.give_up t.now.0 id }
    ensures spelled { IfSome result (λ made. HasSpelling Tagged made.0) }
{
    let Some(v) = t.first_to_double(id) else {
        return None;
    };
    Some((PartEntry::Double(v), Rule::Doubles(v)))
}

/// A call is given up, at a leader that is ready or not.
pub(crate) fn given_up(leader: &Leader, id: CallId) -> Offer
    ensures offered { offered (leads leader.now) result ≡ rules.given_up (leads leader.now) id }
    ensures spelled { IfSome result (λ made. HasSpelling Tagged made.0) }
{
    if !leader.ready {
        return None;
    }
    give_up(&leader.table, id)
}

/// Whether a leader of this term takes what is told to one of that term.
fn hears(leader: &Leader, term: u64, of: u64) -> bool
    ensures { result ≡ (leader.now.ready && (of == term)) }
{
    leader.ready && of == term
}

/// A leader of this term is told, as one of that term, that the in-halves of a chain are written.
fn done(leader: &Leader, term: u64, of: u64, v: u64) -> Offer
    ensures offered { offered (leads leader.now) result ≡ (if leader.now.ready && (of == term) then rules.asking (leads leader.now) (tables.on_remote leader.now.table.0 v) else rules.still (leads leader.now)) }
    ensures spelled { IfSome result (λ made. HasSpelling Tagged made.0) }
{
    if !hears(leader, term, of) {
        return None;
    }
    on_remote(&leader.table, v)
}

/// A leader of this term is told, as one of that term, whether a chain wrote its in-halves.
fn fenced(leader: &Leader, term: u64, of: u64, v: u64, written: bool) -> Offer
    ensures offered { offered (leads leader.now) result ≡ (if leader.now.ready && (of == term) then rules.asking (leads leader.now) (tables.on_fence leader.now.table.0 v written) else rules.still (leads leader.now)) }
    ensures spelled { IfSome result (λ made. HasSpelling Tagged made.0) }
{
    if !hears(leader, term, of) {
        return None;
    }
    on_fence(&leader.table, v, written)
}

/// An entry that belongs to the part and may stand in its log is proposed.
fn proposing(s: Whose, entry: PartEntry) -> Offer
    requires { 0 < s.parts }
    ensures offered { (l : rules.Leading) → offered l result ≡ rules.proposing s.ids s.parts s.part l entry }
    ensures spelled { HasSpelling Tagged entry → IfSome result (λ made. HasSpelling Tagged made.0) }
{
    if !is_payload(s.ids, s.parts, s.part, &entry) {
        return None;
    }
    Some((entry, Rule::Stays))
}

fn requested(s: Whose, entry: PartEntry) -> Offer
    requires { 0 < s.parts }
    ensures offered { (l : rules.Leading) → offered l result ≡ (if is_write_of entry then rules.proposing s.ids s.parts s.part l entry else rules.still l) }
    ensures spelled { HasSpelling Tagged entry → IfSome result (λ made. HasSpelling Tagged made.0) }
{
    if !is_write(&entry) {
        return None;
    }
    proposing(s, entry)
}

/// What a leader of that term makes of what a packet from a part says, but for a Resume.
pub(crate) fn taken(leader: &Leader, s: Whose, term: u64, said: ChainBody, from: u32) -> Offer
    requires parts { 0 < s.parts }
    requires resume { is_resume said ≡ false }
    ensures spelled { IsHeardSaid said → IsSourced said from → IfSome result (λ made. HasSpelling Tagged made.0) }
    ensures offered { (machine : Part) → offered (leads leader.now) result ≡ rules.taken s.ids s.parts s.part term machine (leads leader.now) said from }
{
    match said {
        ChainBody::Request(_, entry) => requested(s, entry),
        ChainBody::Answer(_, _) => None,
        ChainBody::NotLeader(_, _, _) => None,
        ChainBody::Remote(of, v, list) => proposing(s, PartEntry::Remote(from, of, v, list)),
        ChainBody::Done(of, v) => done(leader, term, of, v),
        ChainBody::Stale(_, _, _) => None,
        ChainBody::Fence(of, v, edges) => proposing(s, PartEntry::Fence(from, of, v, edges)),
        ChainBody::Fenced(of, v, written) => fenced(leader, term, of, v, written),
        ChainBody::Resume(_, _) => unreachable!(),
    }
}
