//! What changes nothing in a line: laws of what its tokens spell.
ghost use Rattle.std.specs.Prelude.{◌≡◌, ◌≤◌, ℕ, Bool, true, false, List, [], ◌∷◌, ◌++◌, length, map, Option, nat_eq};
ghost use Rattle.ngql_lex.specs.Lines.{without_cr};
ghost use Rattle.ngql_parser.specs.Alike.{SameLine};
ghost use Rattle.ngql_parser.specs.Kinds.{code};
ghost use Rattle.ngql_parser.specs.Laws.{ends_in};
ghost use Rattle.ngql_parser.specs.Plain.{AreEnds, IsId, IsOfEdge, IsWritable, Condition, AreOfEdge, steps_of, plain_condition, plain_edges, plain_vertices};
ghost use Rattle.grammar.specs.Language.{Spelled};
ghost use Rattle.ngql_parser.specs.PlainBytes.{AllowsIds, IsReadBack};
ghost use Rattle.ngql_parser.specs.PlainDefines.{AreOptions, plain_space, plain_tag, plain_edge_type};
ghost use Rattle.ngql_parser.specs.PlainReads.{plain_use, plain_del_vertex, plain_del_edge, plain_fetch_vertex, plain_fetch_edge, plain_go, IsGo, AreOthers, IsShown, IsOfVertex};
ghost use Rattle.ngql_parser.specs.Places.{bare_line, bare_token};
ghost use Rattle.ngql_parser.specs.Promise.{AreLine, Misfits, Spells, Tokens, tokens_in};
ghost use Rattle.ngql_parser.specs.Rules.{ngql, kind_of, stmt, cond};
ghost use Rattle.ngql_parser.specs.declared.kind.Kind.TheVariants as kind;
ghost use Rattle.ngql_parser.specs.declared.option.Options.{Options};
ghost use Rattle.ngql_parser.specs.declared.token.Token.{Token};
ghost use Rattle.ngql_syntax.specs.declared.define.Column.{Column};
ghost use Rattle.ngql_syntax.specs.declared.define.Define.TheVariants as define;
ghost use Rattle.ngql_syntax.specs.declared.expr.RawExpr.{RawExpr};
ghost use Rattle.ngql_syntax.specs.declared.go.GoWords.{GoWords};
ghost use Rattle.ngql_syntax.specs.declared.lit.Lit.{Lit};
ghost use Rattle.ngql_syntax.specs.declared.put.EdgeRow.{EdgeRow};
ghost use Rattle.ngql_syntax.specs.declared.put.Ends.{Ends};
ghost use Rattle.ngql_syntax.specs.declared.put.PutEdges.{PutEdges};
ghost use Rattle.ngql_syntax.specs.declared.put.PutVertices.{PutVertices};
ghost use Rattle.ngql_syntax.specs.declared.put.VertexRow.{VertexRow};
ghost use Rattle.ngql_syntax.specs.declared.spanned.Spanned.{Spanned};
ghost use Rattle.ngql_syntax.specs.declared.statement.Line.{Line};
ghost use Rattle.ngql_syntax.specs.declared.statement.Statement.TheVariants as statement;

/// A `;` at the end of a line that has none there changes nothing.
pub fn semicolon_changes_nothing()
    ensures { (ts : List Token) (l : Line) (s : Token) → AreLine ts l → ends_in (code kind.Semicolon) ts ≡ false → nat_eq (kind_of s) (code kind.Semicolon) ≡ true → AreLine (ts ++ s ∷ []) l }
{}

/// A line of the same words, with keywords in another case and with more or fewer blanks, is spelled where the other is, and says the same
/// but for the places in it; and where the other has a first misfit, so has it, at the same token and of the same kind.
pub fn same_words_say_the_same()
    ensures spelled { (version : ℕ) (line other : List ℕ) (l : Line) (s : Spells version line l) (t : Tokens version other) → SameLine (without_cr line) (without_cr other) s.tokens.lexed t.lexed → (m : Line) × Spells version other m × (bare_line m ≡ bare_line l) }
    ensures refused { (version : ℕ) (line other : List ℕ) (s : Tokens version line) (t : Tokens version other) → SameLine (without_cr line) (without_cr other) s.lexed t.lexed → (of_limits : Bool) (rest : List Token) → Misfits (tokens_in version line s) of_limits rest → (behind : List Token) × Misfits (tokens_in version other t) of_limits behind × (map bare_token rest ≡ map bare_token behind) }
{}

/// A statement in its plain form is spelled by it, and so is a condition: so each is read back as itself.
pub fn plain_is_read()
    ensures spaces { (n : Spanned) (o : Options) (absent : Bool) → AreOptions o → Spelled ngql false stmt (plain_space n o absent) (statement.Make (define.Space n o.parts o.factor o.ids absent)) }
    ensures tags { (n : Spanned) (columns : List Column) (absent : Bool) → length columns ≤ 32 → Spelled ngql false stmt (plain_tag n columns absent) (statement.Make (define.Tag n columns absent)) }
    ensures edge_types { (n : Spanned) (columns : List Column) (absent : Bool) → length columns ≤ 32 → Spelled ngql false stmt (plain_edge_type n columns absent) (statement.Make (define.Edge n columns absent)) }
    ensures edges { (p : PutEdges) → IsWritable (λ (r : EdgeRow). AreEnds r.ends) p.rows → Spelled ngql false stmt (plain_edges p) (statement.PutEdge p) }
    ensures vertices { (p : PutVertices) → IsWritable (λ (r : VertexRow). IsId r.id.val) p.rows → Spelled ngql false stmt (plain_vertices p) (statement.PutVertex p) }
    ensures select { (n : Spanned) → Spelled ngql false stmt (plain_use n) (statement.Select n) }
    ensures del_vertices { (ids : List Lit) → IsWritable (λ (l : Lit). IsId l.val) ids → Spelled ngql false stmt (plain_del_vertex ids) (statement.DelVertex ids) }
    ensures del_edges { (n : Spanned) (ends : List Ends) → IsWritable AreEnds ends → Spelled ngql false stmt (plain_del_edge n ends) (statement.DelEdge n ends) }
    ensures fetch_vertices { (n : Spanned) (first : Lit) (others : List Lit) (shown : List RawExpr) → IsId first.val → AreOthers (λ (l : Lit). IsId l.val) others → IsShown IsOfVertex shown → Spelled ngql false stmt (plain_fetch_vertex n first others shown) (statement.FetchVertex n (first ∷ others) shown) }
    ensures fetch_edges { (n : Spanned) (first : Ends) (others : List Ends) (shown : List RawExpr) → AreEnds first → AreOthers AreEnds others → IsShown IsOfEdge shown → Spelled ngql false stmt (plain_fetch_edge n first others shown) (statement.FetchEdge n (first ∷ others) shown) }
    ensures go { (g : GoWords) (c : Option Condition) → IsGo g c → Spelled ngql false stmt (plain_go g c) (statement.Go g) }
    ensures conditions { (c : Condition) → AreOfEdge c → Spelled ngql false cond (plain_condition c) (steps_of c) }
{}

/// The bytes of a statement in its plain form spell it, but for the places in it, where each of its names is a word, each number fits 64
/// bits, each text has at most 256 bytes, and the bytes are UTF-8: what is printed is read back.
pub fn printed_is_read()
    ensures spaces { (version : ℕ) (n : Spanned) (o : Options) (absent : Bool) → AreOptions o → AllowsIds version o.ids → IsReadBack version (plain_space n o absent) (statement.Make (define.Space n o.parts o.factor o.ids absent)) }
    ensures tags { (version : ℕ) (n : Spanned) (columns : List Column) (absent : Bool) → length columns ≤ 32 → IsReadBack version (plain_tag n columns absent) (statement.Make (define.Tag n columns absent)) }
    ensures edge_types { (version : ℕ) (n : Spanned) (columns : List Column) (absent : Bool) → length columns ≤ 32 → IsReadBack version (plain_edge_type n columns absent) (statement.Make (define.Edge n columns absent)) }
    ensures edges { (version : ℕ) (p : PutEdges) → IsWritable (λ (r : EdgeRow). AreEnds r.ends) p.rows → IsReadBack version (plain_edges p) (statement.PutEdge p) }
    ensures vertices { (version : ℕ) (p : PutVertices) → IsWritable (λ (r : VertexRow). IsId r.id.val) p.rows → IsReadBack version (plain_vertices p) (statement.PutVertex p) }
    ensures select { (version : ℕ) (n : Spanned) → IsReadBack version (plain_use n) (statement.Select n) }
    ensures del_vertices { (version : ℕ) (ids : List Lit) → IsWritable (λ (l : Lit). IsId l.val) ids → IsReadBack version (plain_del_vertex ids) (statement.DelVertex ids) }
    ensures del_edges { (version : ℕ) (n : Spanned) (ends : List Ends) → IsWritable AreEnds ends → IsReadBack version (plain_del_edge n ends) (statement.DelEdge n ends) }
    ensures fetch_vertices { (version : ℕ) (n : Spanned) (first : Lit) (others : List Lit) (shown : List RawExpr) → IsId first.val → AreOthers (λ (l : Lit). IsId l.val) others → IsShown IsOfVertex shown → IsReadBack version (plain_fetch_vertex n first others shown) (statement.FetchVertex n (first ∷ others) shown) }
    ensures fetch_edges { (version : ℕ) (n : Spanned) (first : Ends) (others : List Ends) (shown : List RawExpr) → AreEnds first → AreOthers AreEnds others → IsShown IsOfEdge shown → IsReadBack version (plain_fetch_edge n first others shown) (statement.FetchEdge n (first ∷ others) shown) }
    ensures go { (version : ℕ) (g : GoWords) (c : Option Condition) → IsGo g c → IsReadBack version (plain_go g c) (statement.Go g) }
{}
