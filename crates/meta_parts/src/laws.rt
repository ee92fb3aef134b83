//! Bodies worked by hand; the statement stands in `specs/Worked`.
ghost use Rattle.std.specs.Prelude.{[], ◌∷◌};
ghost use Rattle.meta_parts.specs.Worked.{AreWritten, HasMoved};

/// Three parts over three nodes, two nodes more and three moves: each body may be written at its place, and then the parts
/// have these peers on these nodes.
pub fn worked_moves()
    ensures written { AreWritten }
    ensures first { HasMoved 1 (3 ∷ 4 ∷ 5 ∷ []) (3 ∷ 4 ∷ 5 ∷ []) }
    ensures second { HasMoved 2 (1 ∷ 3 ∷ 4 ∷ []) (2 ∷ 1 ∷ 4 ∷ []) }
    ensures third { HasMoved 3 (1 ∷ 2 ∷ 3 ∷ []) (3 ∷ 1 ∷ 2 ∷ []) }
{}
