//! What the parts have of an edge; the statements stand in `specs/Edges`.
ghost use Rattle.chain_world.specs.Edges.{EqualWhenNoneStands, LastChainGives};

/// In each run an in-half is that of the last chain on the edge that wrote, an out-half that of the last one that was shown, and
/// a chain that stands on an edge is the last one on it; and what became of each chain is what the decided lists say.
pub fn last_chain_gives()
    ensures { LastChainGives }
{}

/// In each run both halves of an edge on which no chain stands are the same.
pub fn equal_when_none_stands()
    ensures { EqualWhenNoneStands }
{}
