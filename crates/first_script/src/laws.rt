//! A law of the statements: what is spelled is read.
ghost use Rattle.std.specs.Prelude.{◌≡◌, ℕ, ℤ, List, ◌++◌, codes, Some};
ghost use Rattle.first_script.specs.Statements.{Spells, statement_of};
ghost use Rattle.first_script.specs.declared.statement.Statement.TheVariants.{Insert, Out, In};

/// Each statement that is spelled is read, whatever texts spell its numbers.
pub fn spelled_is_read()
    ensures insert { (a b c : List ℕ) (v w n : ℤ) → Spells a v → Spells b w → Spells c n →
        statement_of (codes "INSERT EDGE follow(degree) VALUES " ++ a ++ codes "->" ++ b ++ codes ":(" ++ c ++ codes ")") ≡ Some (Insert v w n) }
    ensures out { (a : List ℕ) (v : ℤ) → Spells a v →
        statement_of (codes "GO FROM " ++ a ++ codes " OVER follow YIELD dst(edge), follow.degree") ≡ Some (Out v) }
    ensures inward { (a : List ℕ) (v : ℤ) → Spells a v →
        statement_of (codes "GO FROM " ++ a ++ codes " OVER follow REVERSELY YIELD src(edge), follow.degree") ≡ Some (In v) }
{}
