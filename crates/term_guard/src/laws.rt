//! What holds of every guard.
ghost use Rattle.term_guard.specs.Terms.{Raised, Rowed};

/// A kept term never falls: a raise leaves the greater term of its part, which is no lower than the one before and by which
/// each term below the raise's is stale, and no other part's term changes; a new row changes no kept term.
pub fn terms_never_fall()
    ensures raised { Raised }
    ensures rowed { Rowed }
{}
