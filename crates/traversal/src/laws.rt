//! Laws of walks.
ghost use Rattle.std.specs.Prelude.{◌≡◌, ℕ, ℤ, List};
ghost use Rattle.graph_model.specs.declared.vid.Vid.{Vid};
ghost use Rattle.ngql_syntax.specs.declared.go.Way.{Way};
ghost use Rattle.traversal.specs.OverSets.{Finds, Reads, Gives, over_sets};
ghost use Rattle.traversal.specs.Sets.{set_of};
ghost use Rattle.traversal.specs.Trail.{starting};
ghost use Rattle.traversal.specs.declared.walk.Walk.{Walk};

/// A walk that is fed to its end gives what the walk over sets gives, whatever each of its reads finds.
pub fn walks_go_over_sets()
    ensures { (finds : Finds) (steps : ℕ) (start : List Vid) (types : List ℤ) (way : Way) (vs : List Vid) (end : Walk)
        → Reads finds (starting steps start types way) vs end → Gives end (over_sets finds steps (set_of start)) }
{}
