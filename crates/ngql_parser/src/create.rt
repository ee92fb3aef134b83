//! CREATE and USE.
ghost use Rattle.std.specs.Prelude.{[], ◌∷◌};
ghost use Rattle.ngql_parser.specs.Gives.{Gives};
ghost use Rattle.ngql_parser.specs.Kinds.{code, names};
ghost use Rattle.ngql_parser.specs.Rules as rule;
ghost use Rattle.ngql_parser.specs.declared.kind.Kind.TheVariants as kind;

use crate::kind::Kind;
use crate::leaves::{is_next, read_ine, read_lit, read_name, read_word};
use crate::list::{Item, is_item_next, read_limited, read_several};
use crate::option::{Opt, Options, options_of, small};
use crate::refusal::Refusal;
use crate::token::Token;
use graph_model::Val;
use lists::Listed;
use ngql_syntax::{Column, Columns, Define, Kind as ColumnKind, Lit, Spanned, Statement};
use part_keys::VidKind;
use std::alloc::Global;

/// An option in a list.
pub struct OptItem;

/// A column in a list.
pub struct ColumnItem;

impl Item for OptItem {
    type Value = Opt;

    ghost begin = { code kind.PartsWord ∷ code kind.BadParts ∷ code kind.FactorWord ∷ code kind.BadFactor ∷ code kind.IdsWord ∷ code kind.BadIds ∷ [] };

    ghost reading = { λ d ts. rule.reads d rule.opt_of ts };

    fn is_begun_by(kind: Kind) -> bool {
        matches!(
            kind,
            Kind::PartsWord
                | Kind::BadParts
                | Kind::FactorWord
                | Kind::BadFactor
                | Kind::IdsWord
                | Kind::BadIds
        )
    }

    fn read(_alloc: Global, d: usize, tokens: &[Token]) -> Result<(Opt, &[Token]), Refusal> {
        read_opt(d, tokens)
    }
}

impl Item for ColumnItem {
    type Value = Column;

    ghost begin = { names };

    ghost reading = { λ d ts. rule.reads d rule.col ts };

    fn is_begun_by(kind: Kind) -> bool {
        kind.is_name()
    }

    fn read(alloc: Global, d: usize, tokens: &[Token]) -> Result<(Column, &[Token]), Refusal> {
        read_col(alloc, d, tokens)
    }
}

#[tactic(auto, unfolding(crate::specs::Rules::option_number))]
fn read_option_number(d: usize, tokens: &[Token]) -> Result<(u8, &[Token]), Refusal>
    ensures { Gives result (rule.reads d rule.option_number tokens.now) }
{
    let Some((first, rest)) = tokens.split_first() else {
        return Err(Refusal::Misfit(false, tokens));
    };
    match first.kind {
        Kind::SmallInt | Kind::Int | Kind::WideInt => Ok((small(first.number), rest)),
        _ => Err(Refusal::Misfit(false, tokens)),
    }
}

#[tactic(auto, unfolding(crate::specs::Rules::set_to))]
fn read_set_to(d: usize, tokens: &[Token]) -> Result<(u8, &[Token]), Refusal>
    ensures { Gives result (rule.reads d rule.set_to tokens.now) }
{
    let (_, rest) = read_word(d, tokens, Kind::Equals)?;
    let (number, rest) = read_option_number(d, rest)?;
    Ok((number, rest))
}

/// The number of parts.
#[tactic(auto, unfolding(crate::specs::Rules::parts_opt))]
fn read_parts(d: usize, tokens: &[Token]) -> Result<(Opt, &[Token]), Refusal>
    ensures { Gives result (rule.reads d rule.parts_opt tokens.now) }
{
    let (_, rest) = read_option_word(d, tokens, Kind::PartsWord, Kind::BadParts)?;
    let (number, rest) = read_set_to(d, rest)?;
    Ok((Opt::Parts(number as u32), rest))
}

/// The word of an option, which another kind of token refuses.
fn read_option_word(
    d: usize,
    tokens: &[Token],
    kind: Kind,
    refused: Kind,
) -> Result<(u32, &[Token]), Refusal>
    ensures { Gives result (rule.reads d (rule.option_word kind refused) tokens.now) }
{
    let Some((first, rest)) = tokens.split_first() else {
        return Err(Refusal::Misfit(false, tokens));
    };
    if first.kind.code() == kind.code() {
        return Ok((first.at, rest));
    }
    Err(Refusal::Misfit(first.kind.code() == refused.code(), tokens))
}

/// The number of replicas.
#[tactic(auto, unfolding(crate::specs::Rules::factor_opt))]
fn read_factor(d: usize, tokens: &[Token]) -> Result<(Opt, &[Token]), Refusal>
    ensures { Gives result (rule.reads d rule.factor_opt tokens.now) }
{
    let (_, rest) = read_option_word(d, tokens, Kind::FactorWord, Kind::BadFactor)?;
    let (number, rest) = read_set_to(d, rest)?;
    Ok((Opt::Factor(number as u32), rest))
}

#[tactic(auto, unfolding(crate::specs::Rules::number_ids))]
fn read_number_ids(d: usize, tokens: &[Token]) -> Result<(VidKind, &[Token]), Refusal>
    ensures { Gives result (rule.reads d rule.number_ids tokens.now) }
{
    let Some((first, rest)) = tokens.split_first() else {
        return Err(Refusal::Misfit(false, tokens));
    };
    match first.kind {
        Kind::Int64Word | Kind::IntWord => Ok((VidKind::Num, rest)),
        _ => Err(Refusal::Misfit(false, tokens)),
    }
}

#[tactic(auto, unfolding(crate::specs::Rules::text_ids))]
fn read_text_ids(d: usize, tokens: &[Token]) -> Result<(VidKind, &[Token]), Refusal>
    ensures { Gives result (rule.reads d rule.text_ids tokens.now) }
{
    let (_, rest) = read_word(d, tokens, Kind::FixedWord)?;
    let (_, rest) = read_word(d, rest, Kind::Open)?;
    let (number, rest) = read_option_number(d, rest)?;
    let (_, rest) = read_word(d, rest, Kind::Close)?;
    Ok((VidKind::Name(number), rest))
}

#[tactic(auto, unfolding(crate::specs::Rules::ids_kind, crate::specs::Rules::text_ids))]
fn read_ids_kind(d: usize, tokens: &[Token]) -> Result<(VidKind, &[Token]), Refusal>
    ensures { Gives result (rule.reads d rule.ids_kind tokens.now) }
{
    let (_, rest) = read_word(d, tokens, Kind::Equals)?;
    let (ids, rest) = read_ids_behind(d, rest)?;
    Ok((ids, rest))
}

/// The kind of ids.
#[tactic(auto, unfolding(crate::specs::Rules::ids_opt))]
fn read_ids(d: usize, tokens: &[Token]) -> Result<(Opt, &[Token]), Refusal>
    ensures { Gives result (rule.reads d rule.ids_opt tokens.now) }
{
    let (_, rest) = read_option_word(d, tokens, Kind::IdsWord, Kind::BadIds)?;
    let (ids, rest) = read_ids_kind(d, rest)?;
    Ok((Opt::Ids(ids), rest))
}

#[tactic(auto, unfolding(crate::specs::Rules::ids_behind, crate::specs::Rules::number_ids, crate::specs::Rules::text_ids))]
fn read_ids_behind(d: usize, tokens: &[Token]) -> Result<(VidKind, &[Token]), Refusal>
    ensures { Gives result (rule.reads d rule.ids_behind tokens.now) }
{
    if is_next(tokens, Kind::Int64Word) || is_next(tokens, Kind::IntWord) {
        return read_number_ids(d, tokens);
    }
    read_text_ids(d, tokens)
}

/// An option.
#[tactic(auto, unfolding(crate::specs::Rules::opt_of, crate::specs::Rules::parts_opt, crate::specs::Rules::factor_opt, crate::specs::Rules::ids_opt))]
fn read_opt(d: usize, tokens: &[Token]) -> Result<(Opt, &[Token]), Refusal>
    ensures { Gives result (rule.reads d rule.opt_of tokens.now) }
{
    let Some((first, _)) = tokens.split_first() else {
        return read_ids(d, tokens);
    };
    match first.kind {
        Kind::PartsWord | Kind::BadParts => read_parts(d, tokens),
        Kind::FactorWord | Kind::BadFactor => read_factor(d, tokens),
        _ => read_ids(d, tokens),
    }
}

#[tactic(auto, unfolding(crate::specs::Rules::opt_list, crate::specs::Rules::opt_of, crate::specs::Rules::parts_opt, crate::specs::Rules::factor_opt, crate::specs::Rules::ids_opt))]
fn read_opt_list(
    alloc: Global,
    d: usize,
    tokens: &[Token],
) -> Result<(Listed<Opt>, &[Token]), Refusal>
    ensures { Gives result (rule.reads d rule.opt_list tokens.now) }
{
    let (_, rest) = read_word(d, tokens, Kind::Open)?;
    let (opts, rest) = read_several::<OptItem>(alloc, d, rest)?;
    let (_, rest) = read_word(d, rest, Kind::Close)?;
    Ok((opts, rest))
}

/// The options of a space.
#[tactic(auto, unfolding(crate::specs::Rules::options, crate::specs::Rules::opt_list))]
fn read_options(alloc: Global, d: usize, tokens: &[Token]) -> Result<(Options, &[Token]), Refusal>
    ensures { Gives result (rule.reads d rule.options tokens.now) }
{
    if !is_next(tokens, Kind::Open) {
        return Ok((options_of(&[]), tokens));
    }
    let (opts, rest) = read_opt_list(alloc, d, tokens)?;
    Ok((options_of(opts.as_slice()), rest))
}

/// A space.
#[tactic(auto, unfolding(crate::specs::Rules::space))]
fn read_space(alloc: Global, d: usize, tokens: &[Token]) -> Result<(Define, &[Token]), Refusal>
    ensures { Gives result (rule.reads d rule.space tokens.now) }
{
    let (_, rest) = read_word(d, tokens, Kind::Space)?;
    let (absent, rest) = read_ine(d, rest)?;
    let (name, rest) = read_name(alloc, d, rest)?;
    let (options, rest) = read_options(alloc, d, rest)?;
    let Options { parts, factor, ids } = options;
    Ok((Define::Space(name, parts, factor, ids, absent), rest))
}

#[tactic(auto, unfolding(crate::specs::Rules::column_type))]
fn read_column_type(d: usize, tokens: &[Token]) -> Result<(ColumnKind, &[Token]), Refusal>
    ensures { Gives result (rule.reads d rule.column_type tokens.now) }
{
    let Some((first, rest)) = tokens.split_first() else {
        return Err(Refusal::Misfit(false, tokens));
    };
    match first.kind {
        Kind::IntWord | Kind::Int64Word => Ok((ColumnKind::Int, rest)),
        Kind::BoolWord => Ok((ColumnKind::Flag, rest)),
        Kind::StringWord => Ok((ColumnKind::Words, rest)),
        _ => Err(Refusal::Misfit(false, tokens)),
    }
}

/// NULL, NOT NULL or nothing.
#[tactic(auto, unfolding(crate::specs::Rules::nullness, crate::specs::Rules::not_null))]
fn read_nullness(d: usize, tokens: &[Token]) -> Result<(bool, &[Token]), Refusal>
    ensures { Gives result (rule.reads d rule.nullness tokens.now) }
{
    if is_next(tokens, Kind::Null) {
        let (_, rest) = read_word(d, tokens, Kind::Null)?;
        return Ok((true, rest));
    }
    if !is_next(tokens, Kind::Not) {
        return Ok((true, tokens));
    }
    let (_, rest) = read_word(d, tokens, Kind::Not)?;
    let (_, rest) = read_word(d, rest, Kind::Null)?;
    Ok((false, rest))
}

/// DEFAULT with its value, or nothing.
#[tactic(auto, unfolding(crate::specs::Rules::standard))]
fn read_standard(
    alloc: Global,
    d: usize,
    tokens: &[Token],
) -> Result<(Option<Val>, &[Token]), Refusal>
    ensures { Gives result (rule.reads d rule.standard tokens.now) }
{
    if !is_next(tokens, Kind::Default) {
        return Ok((None, tokens));
    }
    let (_, rest) = read_word(d, tokens, Kind::Default)?;
    let (lit, rest) = read_lit(alloc, d, rest)?;
    let Lit { val, at: _ } = lit;
    Ok((Some(val), rest))
}

/// A column.
#[tactic(auto, unfolding(crate::specs::Rules::col))]
fn read_col(alloc: Global, d: usize, tokens: &[Token]) -> Result<(Column, &[Token]), Refusal>
    ensures { Gives result (rule.reads d rule.col tokens.now) }
{
    let (name, rest) = read_name(alloc, d, tokens)?;
    let (kind, rest) = read_column_type(d, rest)?;
    let (nullable, rest) = read_nullness(d, rest)?;
    let (standard, rest) = read_standard(alloc, d, rest)?;
    let Spanned { text, at: _ } = name;
    Ok((
        Column {
            name: text,
            kind,
            nullable,
            standard,
        },
        rest,
    ))
}

/// The columns.
#[tactic(auto, unfolding(crate::specs::Rules::columns, crate::specs::Rules::col, crate::specs::Rules::name))]
fn read_columns(alloc: Global, d: usize, tokens: &[Token]) -> Result<(Columns, &[Token]), Refusal>
    ensures { Gives result (rule.reads d rule.columns tokens.now) }
{
    let (_, rest) = read_word(d, tokens, Kind::Open)?;
    if !is_item_next::<ColumnItem>(rest) {
        let (_, rest) = read_word(d, rest, Kind::Close)?;
        return Ok((Listed::new(alloc), rest));
    }
    let (columns, rest) = read_limited::<ColumnItem>(alloc, d, rest, 32)?;
    let (_, rest) = read_word(d, rest, Kind::Close)?;
    Ok((columns, rest))
}

/// What stands behind TAG and EDGE.
#[tactic(auto, unfolding(crate::specs::Rules::shape))]
fn read_shape(
    alloc: Global,
    d: usize,
    tokens: &[Token],
) -> Result<((bool, (Spanned, Columns)), &[Token]), Refusal>
    ensures { Gives result (rule.reads d rule.shape tokens.now) }
{
    let (absent, rest) = read_ine(d, tokens)?;
    let (name, rest) = read_name(alloc, d, rest)?;
    let (columns, rest) = read_columns(alloc, d, rest)?;
    Ok(((absent, (name, columns)), rest))
}

/// A tag.
#[tactic(auto, unfolding(crate::specs::Rules::tag))]
fn read_tag(alloc: Global, d: usize, tokens: &[Token]) -> Result<(Define, &[Token]), Refusal>
    ensures { Gives result (rule.reads d rule.tag tokens.now) }
{
    let (_, rest) = read_word(d, tokens, Kind::Tag)?;
    let ((absent, (name, columns)), rest) = read_shape(alloc, d, rest)?;
    Ok((Define::Tag(name, columns, absent), rest))
}

/// An edge type.
#[tactic(auto, unfolding(crate::specs::Rules::edge))]
fn read_edge(alloc: Global, d: usize, tokens: &[Token]) -> Result<(Define, &[Token]), Refusal>
    ensures { Gives result (rule.reads d rule.edge tokens.now) }
{
    let (_, rest) = read_word(d, tokens, Kind::Edge)?;
    let ((absent, (name, columns)), rest) = read_shape(alloc, d, rest)?;
    Ok((Define::Edge(name, columns, absent), rest))
}

#[tactic(auto, unfolding(crate::specs::Rules::defined, crate::specs::Rules::space, crate::specs::Rules::tag))]
fn read_defined(alloc: Global, d: usize, tokens: &[Token]) -> Result<(Define, &[Token]), Refusal>
    ensures { Gives result (rule.reads d rule.defined tokens.now) }
{
    if is_next(tokens, Kind::Space) {
        return read_space(alloc, d, tokens);
    }
    if is_next(tokens, Kind::Tag) {
        return read_tag(alloc, d, tokens);
    }
    read_edge(alloc, d, tokens)
}

/// CREATE
#[tactic(auto, unfolding(crate::specs::Rules::create))]
pub fn read_create(
    alloc: Global,
    d: usize,
    tokens: &[Token],
) -> Result<(Statement, &[Token]), Refusal>
    ensures { Gives result (rule.reads d rule.create tokens.now) }
{
    let (_, rest) = read_word(d, tokens, Kind::Create)?;
    let (define, rest) = read_defined(alloc, d, rest)?;
    Ok((Statement::Make(define), rest))
}

/// USE
#[tactic(auto, unfolding(crate::specs::Rules::use_of))]
pub fn read_use(alloc: Global, d: usize, tokens: &[Token]) -> Result<(Statement, &[Token]), Refusal>
    ensures { Gives result (rule.reads d rule.use_of tokens.now) }
{
    let (_, rest) = read_word(d, tokens, Kind::Use)?;
    let (name, rest) = read_name(alloc, d, rest)?;
    Ok((Statement::Select(name), rest))
}
