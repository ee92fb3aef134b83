//! Laws of conditions.
ghost use Rattle.std.specs.Prelude.{◌≡◌, map};
ghost use Rattle.graph_model.specs.declared.found.Found.{Found};
ghost use Rattle.schema_book.specs.Entries.{Entries};
ghost use Rattle.shown_rows.specs.Conditions.{Condition, holds, is_so, steps_of};
ghost use Rattle.shown_rows.specs.Worked.{by_hand, relations_of};

/// The steps of a condition leave what it says as a tree.
pub fn conditions_mean_their_trees()
    ensures { (edges : Entries) (found : Found) (condition : Condition) → holds edges found (steps_of condition) ≡ is_so edges found condition }
{}

/// What holds of each pair of kinds is what was written by hand.
pub fn relations_by_hand()
    ensures { map (λ row. relations_of row.0) by_hand ≡ map (λ row. row.1) by_hand }
{}
