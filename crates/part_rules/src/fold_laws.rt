//! What holds of the part behind every decided list; the statements stand in `specs/FoldLaws`.
ghost use Rattle.part_rules.specs.FoldLaws.{
  OneChainAnEdge,
  NamedByPrime,
  NumbersRise,
  GuardsRise,
  LowerAreStale,
  WholeOrNone,
};

/// Of the chains that stand at most one is on an edge.
pub fn one_chain_an_edge()
    ensures { OneChainAnEdge }
{}

/// A chain that stands has the index of its Prime as its number, and the edges that this Prime took.
pub fn named_by_prime()
    ensures { NamedByPrime }
{}

/// The kept number of an edge and the guard for a part never fall.
pub fn never_fall()
    ensures numbers { NumbersRise }
    ensures guards { GuardsRise }
{}

/// Once a Remote or a Fence of a term was decided, each of a lower term of that source part is stale.
pub fn lower_terms_are_stale()
    ensures { LowerAreStale }
{}

/// Where a chain is the last one on each of its edges, all of its in-halves are written or none.
pub fn whole_or_none()
    ensures { WholeOrNone }
{}
