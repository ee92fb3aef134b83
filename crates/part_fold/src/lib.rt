//! A part behind its decided list, in memory.
//!
//! [`PartState`] keeps a part's state in maps: the rows of tags and out-halves, the in-halves with their numbers, the chains that
//! stand, the guards, and of each client the last call. [`folded`] applies a decided list, item by item, and what it leaves is
//! the definition's part behind that list; `view` finds in it what the query finds in that part.
//!
//! It takes every entry, of whatever size, and knows no bytes; a replica's machine, which keeps its part in a store of keys and
//! plans ahead, takes the entries that have a spelling. So this one is what runs of worlds are computed with, and no program
//! that serves stands on it.
//!
//! Below is `part_rules`, with the table; above is `chain_run`.
#![tactic(auto)]

mod edges;
mod ending;
mod finding;
mod folding;
mod in_halves;
mod numbered;
mod out_halves;
mod priming;
mod remoting;
mod showing;
mod standing;
mod state;
mod tags;
mod vertices;

pub use folding::folded;
pub use in_halves::InHalves;
pub use numbered::Numbered;
pub use out_halves::OutHalves;
pub use standing::Standing;
pub use state::PartState;
pub use tags::Tags;
