//! Words and marks of the grammar.
ghost use Rattle.std.specs.Prelude.{◌≡◌, List, ℕ, map, option_map};
ghost use Rattle.std.specs.List.{find};
ghost use Rattle.std.specs.Str.{str_eq_ignore_ascii_case};
ghost use denote.Ref.{Bor};
ghost use Rattle.ngql_parser.specs.declared.kind.Kind.{Kind};
ghost use Rattle.ngql_parser.specs.Words as spec;

use crate::kind::Kind;

/// The keywords.
const KEYWORDS: [(&[u8], Kind); 31] = [
    (b"CREATE", Kind::Create),
    (b"SPACE", Kind::Space),
    (b"USE", Kind::Use),
    (b"TAG", Kind::Tag),
    (b"EDGE", Kind::Edge),
    (b"IF", Kind::If),
    (b"NOT", Kind::Not),
    (b"EXISTS", Kind::Exists),
    (b"INSERT", Kind::Insert),
    (b"VERTEX", Kind::Vertex),
    (b"VALUES", Kind::Values),
    (b"DELETE", Kind::Delete),
    (b"FETCH", Kind::Fetch),
    (b"PROP", Kind::Prop),
    (b"ON", Kind::On),
    (b"GO", Kind::Go),
    (b"STEP", Kind::Step),
    (b"STEPS", Kind::Steps),
    (b"FROM", Kind::From),
    (b"OVER", Kind::Over),
    (b"REVERSELY", Kind::Reversely),
    (b"BIDIRECT", Kind::Bidirect),
    (b"WHERE", Kind::Where),
    (b"YIELD", Kind::Yield),
    (b"AS", Kind::As),
    (b"AND", Kind::And),
    (b"OR", Kind::Or),
    (b"NULL", Kind::Null),
    (b"DEFAULT", Kind::Default),
    (b"TRUE", Kind::True),
    (b"FALSE", Kind::False),
];

/// The words that mean something in some places, and are names in others.
const WORDS: [(&[u8], Kind); 14] = [
    (b"int", Kind::IntWord),
    (b"int64", Kind::Int64Word),
    (b"bool", Kind::BoolWord),
    (b"string", Kind::StringWord),
    (b"fixed_string", Kind::FixedWord),
    (b"partition_num", Kind::PartsWord),
    (b"replica_factor", Kind::FactorWord),
    (b"vid_type", Kind::IdsWord),
    (b"src", Kind::SrcCall),
    (b"dst", Kind::DstCall),
    (b"rank", Kind::RankCall),
    (b"type", Kind::TypeCall),
    (b"id", Kind::IdCall),
    (b"properties", Kind::PropsCall),
];

/// The marks.
const MARKS: [(&[u8], Kind); 17] = [
    (b"->", Kind::Arrow),
    (b"@", Kind::At),
    (b",", Kind::Comma),
    (b":", Kind::Colon),
    (b";", Kind::Semicolon),
    (b"(", Kind::Open),
    (b")", Kind::Close),
    (b".", Kind::Dot),
    (b"*", Kind::Star),
    (b"~", Kind::Tilde),
    (b"=", Kind::Equals),
    (b"==", Kind::Eq),
    (b"!=", Kind::Ne),
    (b"<", Kind::Lt),
    (b"<=", Kind::Le),
    (b">", Kind::Gt),
    (b">=", Kind::Ge),
];

/// The kind beside a word in a table, in any case.
fn kind_beside(table: &[(&[u8], Kind)], word: &[u8]) -> Option<Kind>
    ensures { result ≡ option_map (λ (entry : Bor (List ℕ) × Kind). entry.1) (find (λ (entry : Bor (List ℕ) × Kind). str_eq_ignore_ascii_case word.now entry.0.now) table.now) }
{
    let found = table
        .iter()
        .find(|entry| word.eq_ignore_ascii_case(entry.0))?;
    Some(found.1)
}

/// The kind of a word by a table, in any case.
fn kind_in(table: &[(&[u8], Kind)], word: &[u8]) -> Option<Kind>
    ensures { result ≡ spec.kind_in (map spec.entry_of table.now) word.now }
{
    kind_beside(table, word)
}

/// The kind of a keyword.
pub fn keyword_kind(word: &[u8]) -> Option<Kind>
    ensures { result ≡ spec.kind_in spec.keywords word.now }
{
    kind_in(&KEYWORDS, word)
}

/// The kind of a word that means something in some places.
pub fn word_kind(word: &[u8]) -> Option<Kind>
    ensures { result ≡ spec.kind_in spec.words word.now }
{
    kind_in(&WORDS, word)
}

/// The kind of a mark.
pub fn mark_kind(word: &[u8]) -> Option<Kind>
    ensures { result ≡ spec.kind_in spec.marks word.now }
{
    kind_in(&MARKS, word)
}
