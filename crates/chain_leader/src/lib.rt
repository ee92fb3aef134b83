//! What a leader of a part does with the chains that start there.
//!
//! A leader keeps a table of the chains that it knows, by number. Each rule is a function of the table and what came, to
//! the table and what is proposed or sent. A leader that has applied its own no-op is ready, and only a ready leader takes
//! the rules; it proposes clients' writes and other parts' Remotes and Fences whether it is ready or not. A leader is known
//! by its part and its term alone: no letter names a peer, and no rule looks at hints.
//!
//! Reading order: `specs/Rules` has the rules, one after another; `specs/Leading` what a leader does with a packet (`taken`),
//! with an item that it applies (`on_item`), with a call that is given up (`given_up`) and with a pulse (`pulsed`);
//! `specs/Calls` what a client's call is to a part: its entry, its part, its answer. These are to be believed, beside what
//! the laws say: `specs/Names`, `specs/Modes`, `specs/Laws`. What is claimed:
//! - each letter and each entry names a chain of the table, with its list and remote part (`names_its_chain`);
//! - a chain is put or fenced, never both, and an Abort is asked for only of a fenced one (`one_mode`);
//! - a leader that isn't ready sends for no chain (`only_ready_leaders_send`);
//! - no rule looks at tries or hints (`blind_to_routes`), and rules worked by hand (`worked_rules`).
//!
//! The code equals the definitions, clause by clause: [`ChainTable`], the rules, what [`Leader`] makes of a packet
//! (`taken`, and `resumed` of a Resume), of an item that it applies (`on_item`), of a call that is given up and of a pulse, and
//! a call's entry, part and answer. Where a call takes memory it takes it before its first change. `specs/Table`, `Rows`,
//! `Leader`, `Resuming` and `Applying` say how the program keeps what the definitions speak of.
//!
//! Below is `part_rules`; above is `chain_world`.
#![tactic(auto)]

mod ahead;
mod answers;
mod body;
mod calls;
mod item_letters;
mod laws;
mod leader;
mod letter;
mod new_chain;
mod resuming;
mod rules;
mod table;

pub use ahead::{ItemAhead, item_ahead};
pub use answers::{answer_of, back_of, call_in, chain_at, chain_in, is_write, told};
pub use body::{About, ChainBody};
pub use calls::{entry_of, part_of_op, removal};
pub use item_letters::ItemLetters;
pub use laws::{blind_to_routes, names_its_chain, one_mode, only_ready_leaders_send, worked_rules};
pub use leader::{Leader, read};
pub use letter::Letter;
pub use new_chain::{NewChain, beginning};
pub use resuming::TakenUp;
pub use rules::{give_up, mark, on_fence, on_primed, on_remote, resume};
pub use table::{ChainTable, Route};
