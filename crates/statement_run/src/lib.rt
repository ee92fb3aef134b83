//! A client: its statements one after another, each a walk from answer to answer.
//!
//! `specs/Statement` says which call comes next: a statement is a function from the answers of its calls so far to its next
//! call, with the number of parts by which its calls are routed; behind Conflict, Cancelled or Unknown it makes none, and a
//! walk whose answers are too wide gives none. `specs/Caller` is the client: what it makes of a statement that is queued, of
//! a packet, of a Round, and of a Reply. What it then has to make, a Reply or an Invoke, is an event of its own in the
//! world; `owes` says whether a packet or a Reply left it one, which is what a quiet point asks.
//!
//! Claimed, in `laws`: the calls that a client makes are those of its statements, in order, each once (`specs/Story` says over
//! which stories); the first Answer of the open call that fits it makes its Reply due, and no other packet does; a Reply leaves
//! a call to make exactly where one comes next; a Round counts by one, to the last number. To be believed are `Statement` and
//! `Caller`, and what a story is.
//!
//! [`Client`] is the program. It shows such a client (`specs/Client`), one that has made what it had to: [`Client::invoke`] queues
//! a statement that was bound (`specs/Bound`), [`Client::on_packet`] hears a packet, [`Client::on_round`] sends the open call
//! again, and [`Client::expire`] ends it with Unknown. Each shows what `specs/Settled` says of what was shown before, gives the
//! Reply, the Invoke and the packet that follow, and leaves all as it was behind want of memory.
//!
//! Below are `replica_model`, for packets, `schema_book`, for what a statement is bound to, and `traversal`, for walks; above is
//! `world_model`.
#![tactic(auto)]

mod call;
mod client;
mod copies;
mod effects;
mod ending;
mod first;
mod laws;
mod lines;
mod tally;
mod task;
mod waiting;
mod walks;

pub use client::Client;
pub use effects::{ClientEffects, Invoked, Said};
pub use ending::Ending;
pub use laws::{
    answers_count_once, calls_in_order, ends_are_told, replies_leave, rounds_count, statements_stop,
};
