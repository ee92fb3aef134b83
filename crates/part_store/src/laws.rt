//! What holds of a part's state and the store that keeps it; the statements stand in `specs/Laws`.
ghost use Rattle.part_store.specs.Laws.{KeepsOne, KeepsBlank, RowsAreRead, EdgesAreRead, RecordsAreRead, TagsAreRead, RecordsAreKept, TagsAreKept, HalvesAreKept, ChainsAreKept, OfKept};

/// A store keeps one state alone, but for the chains' lists, whose order it doesn't have; the empty store keeps the state
/// before the first entry.
pub fn one_state_kept()
    ensures one { KeepsOne }
    ensures blank { KeepsBlank }
{}

/// What is read in a store is what the state has that it keeps.
pub fn reads_are_the_state()
    ensures rows { OfKept RowsAreRead }
    ensures edges { OfKept EdgesAreRead }
    ensures records { OfKept RecordsAreRead }
    ensures tags { OfKept TagsAreRead }
{}

/// Behind the writes of a change the store keeps the changed state.
pub fn writes_keep_up()
    ensures records { OfKept RecordsAreKept }
    ensures tags { OfKept TagsAreKept }
    ensures halves { OfKept HalvesAreKept }
    ensures chains { OfKept ChainsAreKept }
{}
