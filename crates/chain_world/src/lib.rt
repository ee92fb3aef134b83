//! Chains over any schedule of deliveries and leaders are runs of the graph machine.
//!
//! A world of parts is each part's decided list, any number of leaders of a part at the same time, all packets ever sent, any
//! of which may be taken at any time and again, and the clients. Nothing is assumed of who leads or of what arrives; of the
//! lists only that each entry is its leader's next proposal and that terms never fall, which is what a group's log gives.
//!
//! What is claimed, and has to be believed, stands in `specs/`, in this order: `State`; `World`, a table with a row an event;
//! `Ledger`, the graph steps that the decided entries amount to; `Outside`, with the theorem `ChainsRefine`: for every list of
//! events the steps are a run of the graph machine, whose trace is the lawful calls and answers, in order. Beside it stand
//! `Causes` (what is behind each answer that was sent), `Edges` with `Course` and `Founded` (what the parts have of an edge, and
//! what became of each chain), `Next` (Decide in the words of leaderships), and the worked runs. The laws are the functions
//! without a body in `src/`.
//!
//! What only the proof sees stands in `specs/Invariant`. Two proofs meet there: where each decision meets a discipline the
//! ledger stays sound (`Discipline`, `Sound`); and what holds between leaders, packets and lists makes each decision meet it
//! (`Protocol`, `Safe`).
//!
//! Below are a leader's rules (`chain_leader`) and the parts (`part_rules`); above is the replicated world, whose runs are
//! such runs.
#![tactic(auto)]

mod edge_laws;
mod event;
mod ledger_laws;
mod packet;
mod worked_laws;
mod world_laws;

pub use edge_laws::{equal_when_none_stands, last_chain_gives};
pub use event::ChainEvent;
pub use ledger_laws::{chains_go_on, ledgers_are_seen, ledgers_refine, ledgers_stay_sound};
pub use packet::{ChainEnd, ChainPacket};
pub use worked_laws::{worked_double, worked_fence, worked_late, worked_run, worked_seeing};
pub use world_laws::{
    cancels_by_policy, chains_refine, decides_next, decisions_meet, replies_have_causes,
    sent_answers_have_causes, shows_given_up, worlds_are_safe, worlds_run_on,
};
