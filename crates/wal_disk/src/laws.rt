//! What holds of every part file.
ghost use Rattle.std.specs.Prelude.{◌≡◌, ◌∷◌, [], ◌++◌, ℕ, List};
ghost use Rattle.wal_disk.specs.File.{IsFile, IsBroken, IsBeforeOrAfter};

/// A file is of one version, and has one list of records.
pub fn one_reading()
    ensures { (file : List ℕ) (version other : ℕ) (bodies others : List (List ℕ)) → IsFile version bodies file → IsFile other others file
        → (version ≡ other) × (bodies ≡ others) }
{}

/// A file that has records isn't outside the grammar, nor is what a crash leaves of it at any moment of an append.
pub fn never_bad()
    ensures file { (file : List ℕ) (version : ℕ) (bodies : List (List ℕ)) (at : ℕ) → IsFile version bodies file → IsBroken file at → ⊥ }
    ensures image { (image body : List ℕ) (version : ℕ) (bodies : List (List ℕ)) (at : ℕ) → IsBeforeOrAfter version bodies body image → IsBroken image at → ⊥ }
{}

/// A file that is outside the grammar is so at one place.
pub fn one_place()
    ensures { (file : List ℕ) (at place : ℕ) → IsBroken file at → IsBroken file place → at ≡ place }
{}
