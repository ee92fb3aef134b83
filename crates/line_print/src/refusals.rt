//! What a line is answered that isn't taken.
ghost use Rattle.std.specs.Prelude.{◌≡◌};
ghost use Rattle.line_print.specs.Refusals as spec;

use crate::line_refused::LineRefused;
use ngql_parser::ParseRefused;
use schema_book::BookRefused;

/// What a line is answered that the parser refuses; none where it had no memory.
pub fn by_parser(why: ParseRefused) -> Option<LineRefused>
    ensures { result ≡ spec.by_parser why }
{
    match why {
        ParseRefused::BadToken(at) => Some(LineRefused::Syntax(at)),
        ParseRefused::Syntax(at) => Some(LineRefused::Syntax(at)),
        ParseRefused::NumberTooWide(at) => Some(LineRefused::NumberTooWide(at)),
        ParseRefused::TooMany(at) => Some(LineRefused::TooMany(at)),
        ParseRefused::BadOption(at) => Some(LineRefused::BadOption(at)),
        ParseRefused::NoMemory => None,
    }
}

/// What a line is answered that the schema refuses; none where it had no memory.
pub fn by_book(why: BookRefused) -> Option<LineRefused>
    ensures { result ≡ spec.by_book why }
{
    match why {
        BookRefused::NoSpace => Some(LineRefused::NoSpace),
        BookRefused::OneSpace => Some(LineRefused::OneSpace),
        BookRefused::NoSuchName(name) => Some(LineRefused::NoSuchName(name)),
        BookRefused::NameTaken(name) => Some(LineRefused::NameTaken(name)),
        BookRefused::WrongType(name) => Some(LineRefused::WrongType(name)),
        BookRefused::WrongCount(at) => Some(LineRefused::WrongCount(at)),
        BookRefused::NotSet(name) => Some(LineRefused::NotSet(name)),
        BookRefused::LongId(at) => Some(LineRefused::LongId(at)),
        BookRefused::TooMany(at) => Some(LineRefused::TooMany(at)),
        BookRefused::NoMemory => None,
    }
}
