//! Kinds of tokens.
ghost use Rattle.std.specs.Prelude.{◌≡◌};
ghost use Rattle.grammar.specs.Grammar.{is_among};
ghost use Rattle.ngql_parser.specs.Kinds as spec;

/// What a token is to the grammar.
#[derive(Clone, Copy)]
pub enum Kind {
    /// What is left out beyond a limit. No line has it.
    Ellipsis,
    /// A name that is no word of the grammar, or a word in backquotes.
    Name,
    /// A whole number from 0 to 8.
    SmallInt,
    /// Another whole number that fits 64 bits.
    Int,
    /// A whole number that doesn't.
    WideInt,
    /// A text of at most 256 bytes.
    Text,
    /// A longer text.
    LongText,
    /// A client's number: 1 to 64, with no zero in front, behind the `@` at the head of a line.
    Client,
    /// The space behind the number at the head of a line.
    Blank,
    /// `->`
    Arrow,
    /// `@`
    At,
    /// `,`
    Comma,
    /// `:`
    Colon,
    /// `;`
    Semicolon,
    /// `(`
    Open,
    /// `)`
    Close,
    /// `.`
    Dot,
    /// `*`
    Star,
    /// `~` before INSERT, DELETE, FETCH or GO.
    Tilde,
    /// What fits nowhere, as a `~` before anything else.
    Stray,
    /// `=`
    Equals,
    /// `==`
    Eq,
    /// `!=`
    Ne,
    /// `<`
    Lt,
    /// `<=`
    Le,
    /// `>`
    Gt,
    /// `>=`
    Ge,
    /// CREATE
    Create,
    /// SPACE
    Space,
    /// USE
    Use,
    /// TAG
    Tag,
    /// EDGE
    Edge,
    /// IF
    If,
    /// NOT
    Not,
    /// EXISTS
    Exists,
    /// INSERT
    Insert,
    /// VERTEX
    Vertex,
    /// VALUES
    Values,
    /// DELETE
    Delete,
    /// FETCH
    Fetch,
    /// PROP
    Prop,
    /// ON
    On,
    /// GO
    Go,
    /// STEP
    Step,
    /// STEPS
    Steps,
    /// FROM
    From,
    /// OVER
    Over,
    /// REVERSELY
    Reversely,
    /// BIDIRECT
    Bidirect,
    /// WHERE
    Where,
    /// YIELD
    Yield,
    /// AS
    As,
    /// AND
    And,
    /// OR
    Or,
    /// NULL
    Null,
    /// DEFAULT
    Default,
    /// TRUE
    True,
    /// FALSE
    False,
    /// The word `int`.
    IntWord,
    /// The word `int64`.
    Int64Word,
    /// The word `bool`.
    BoolWord,
    /// The word `string`.
    StringWord,
    /// The word `fixed_string`.
    FixedWord,
    /// The word `partition_num`.
    PartsWord,
    /// The word `replica_factor`.
    FactorWord,
    /// The word `vid_type`.
    IdsWord,
    /// The word `partition_num` of an option that is refused.
    BadParts,
    /// The word `replica_factor` of an option that is refused.
    BadFactor,
    /// The word `vid_type` of an option that is refused.
    BadIds,
    /// The word `src` before `(`.
    SrcCall,
    /// The word `dst` before `(`.
    DstCall,
    /// The word `rank` before `(`.
    RankCall,
    /// The word `type` before `(`.
    TypeCall,
    /// The word `id` before `(`.
    IdCall,
    /// The word `properties` before `(` and EDGE.
    EdgePropsCall,
    /// The word `properties` before `(` and VERTEX.
    VertexPropsCall,
    /// The word `properties` before `(` and anything else.
    PropsCall,
}

impl Kind {
    /// Its number among the kinds.
    pub fn code(self) -> u8
        ensures { result ≡ spec.code self }
    {
        match self {
            Kind::Ellipsis => 0,
            Kind::Name => 1,
            Kind::SmallInt => 2,
            Kind::Int => 3,
            Kind::WideInt => 4,
            Kind::Text => 5,
            Kind::LongText => 6,
            Kind::Client => 7,
            Kind::Blank => 8,
            Kind::Arrow => 9,
            Kind::At => 10,
            Kind::Comma => 11,
            Kind::Colon => 12,
            Kind::Semicolon => 13,
            Kind::Open => 14,
            Kind::Close => 15,
            Kind::Dot => 16,
            Kind::Star => 17,
            Kind::Tilde => 18,
            Kind::Stray => 19,
            Kind::Equals => 20,
            Kind::Eq => 21,
            Kind::Ne => 22,
            Kind::Lt => 23,
            Kind::Le => 24,
            Kind::Gt => 25,
            Kind::Ge => 26,
            Kind::Create => 27,
            Kind::Space => 28,
            Kind::Use => 29,
            Kind::Tag => 30,
            Kind::Edge => 31,
            Kind::If => 32,
            Kind::Not => 33,
            Kind::Exists => 34,
            Kind::Insert => 35,
            Kind::Vertex => 36,
            Kind::Values => 37,
            Kind::Delete => 38,
            Kind::Fetch => 39,
            Kind::Prop => 40,
            Kind::On => 41,
            Kind::Go => 42,
            Kind::Step => 43,
            Kind::Steps => 44,
            Kind::From => 45,
            Kind::Over => 46,
            Kind::Reversely => 47,
            Kind::Bidirect => 48,
            Kind::Where => 49,
            Kind::Yield => 50,
            Kind::As => 51,
            Kind::And => 52,
            Kind::Or => 53,
            Kind::Null => 54,
            Kind::Default => 55,
            Kind::True => 56,
            Kind::False => 57,
            Kind::IntWord => 58,
            Kind::Int64Word => 59,
            Kind::BoolWord => 60,
            Kind::StringWord => 61,
            Kind::FixedWord => 62,
            Kind::PartsWord => 63,
            Kind::FactorWord => 64,
            Kind::IdsWord => 65,
            Kind::BadParts => 66,
            Kind::BadFactor => 67,
            Kind::BadIds => 68,
            Kind::SrcCall => 69,
            Kind::DstCall => 70,
            Kind::RankCall => 71,
            Kind::TypeCall => 72,
            Kind::IdCall => 73,
            Kind::EdgePropsCall => 74,
            Kind::VertexPropsCall => 75,
            Kind::PropsCall => 76,
        }
    }

    /// Whether a token of the kind may be a name in front of a dot.
    pub fn is_owner(self) -> bool
        ensures { result ≡ is_among (spec.code self) spec.owners }
    {
        matches!(
            self,
            Kind::Name
                | Kind::IntWord
                | Kind::Int64Word
                | Kind::BoolWord
                | Kind::StringWord
                | Kind::FixedWord
                | Kind::PartsWord
                | Kind::FactorWord
                | Kind::IdsWord
                | Kind::BadParts
                | Kind::BadFactor
                | Kind::BadIds
        )
    }

    /// Whether a token of the kind may be a name.
    pub fn is_name(self) -> bool
        ensures { result ≡ is_among (spec.code self) spec.names }
    {
        matches!(
            self,
            Kind::Name
                | Kind::IntWord
                | Kind::Int64Word
                | Kind::BoolWord
                | Kind::StringWord
                | Kind::FixedWord
                | Kind::PartsWord
                | Kind::FactorWord
                | Kind::IdsWord
                | Kind::BadParts
                | Kind::BadFactor
                | Kind::BadIds
                | Kind::SrcCall
                | Kind::DstCall
                | Kind::RankCall
                | Kind::TypeCall
                | Kind::IdCall
                | Kind::EdgePropsCall
                | Kind::VertexPropsCall
                | Kind::PropsCall
        )
    }
}
