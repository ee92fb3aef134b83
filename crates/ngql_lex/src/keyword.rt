//! The words that no plain name may be.
ghost use Rattle.std.specs.Prelude.{◌≡◌, ℕ, List};
ghost use Rattle.std.specs.List.{list_any};
ghost use Rattle.std.specs.Str.{str_eq_ignore_ascii_case};
ghost use denote.Ref.{Bor};
ghost use Rattle.ngql_lex.specs.Keywords.{is_keyword};

const KEYWORDS: [&[u8]; 31] = [
    b"CREATE",
    b"SPACE",
    b"USE",
    b"TAG",
    b"EDGE",
    b"IF",
    b"NOT",
    b"EXISTS",
    b"INSERT",
    b"VERTEX",
    b"VALUES",
    b"DELETE",
    b"FETCH",
    b"PROP",
    b"ON",
    b"GO",
    b"STEP",
    b"STEPS",
    b"FROM",
    b"OVER",
    b"REVERSELY",
    b"BIDIRECT",
    b"WHERE",
    b"YIELD",
    b"AS",
    b"AND",
    b"OR",
    b"NULL",
    b"DEFAULT",
    b"TRUE",
    b"FALSE",
];

/// Whether the word is one of these, in any case.
fn is_among(word: &[u8], words: &[&[u8]]) -> bool
    ensures { result ≡ list_any (λ (other : Bor (List ℕ)). str_eq_ignore_ascii_case word.now other.now) words.now }
{
    words.iter().any(|other| word.eq_ignore_ascii_case(other))
}

/// Whether the word is a keyword, in any case.
pub fn is_keyword(word: &[u8]) -> bool
    ensures { result ≡ is_keyword word.now }
{
    is_among(word, &KEYWORDS)
}
