//! The file of a replica: what its records leave, one after the other.
//!
//! A replica writes one record a step into its part file; each changes term, vote and log. What is durable of the replica
//! is the fold of these records (`specs/Folded`). Which payloads may stand in its log is told from above ([`Payloads`]); a body is
//! one of the replica where it is a record with such payloads alone (`specs/Grammar`), and a file is one where it is a part
//! file of version 2 and each body is (`specs/File`). A [`LogFile`] is that file on its disk.
//!
//! The contract, over any `Disk` as far as it tells its file: a crash at any moment of [`LogFile::keep`] leaves the state
//! before, or that behind the record (`any_moment`), and once it answered Ok each image has the latter (`acknowledged`).
//! [`LogFile::recover`] gives the fold of what a crash or a fault left, or the place where the file is none of the replica,
//! which no image of a file is that was made and written by these calls. [`folded`] is that fold, with the place of the
//! first field that doesn't fit. The laws: what is folded are records of the replica, and each list of such records is folded
//! (`one_fold`); a file has one state, and one that has a state is never bad (`one_state`); and what a crash at any moment of
//! an append leaves has the state before, or that with the record (`before_or_behind`).
//!
//! Below are `wal_frames` and `wal_disk`, the records of any log and the part file; above will be a replica on its disk, whose
//! peer has the same term, vote and log as durable.
#![tactic(auto)]

mod durable;
mod folding;
mod founding;
mod laws;
mod log_file;
mod payloads;
mod reading;
mod refused;

pub use durable::Durable;
pub use folding::folded;
pub use founding::founded;
pub use laws::{before_or_behind, one_fold, one_state};
pub use log_file::{Found, LogFile};
pub use payloads::Payloads;
pub use reading::FILE_VERSION;
pub use refused::FoldRefused;
