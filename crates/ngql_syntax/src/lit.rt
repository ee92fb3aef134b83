//! Literals with their places.
use graph_model::Val;
use lists::Listed;

/// A literal and where it stands. As the id of a vertex it is a number or a text.
#[derive(Drop)]
pub struct Lit {
    /// Its value.
    pub val: Val,
    /// The place of its first byte in the line, from 1.
    pub at: u32,
}

/// Literals, in the order in which they stand.
pub type Lits = Listed<Lit>;

/// A list of values and where it stands.
#[derive(Drop)]
pub struct Values {
    /// The place of its `(` in the line, from 1.
    pub at: u32,
    /// The values.
    pub list: Lits,
}
