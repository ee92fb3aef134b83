//! Options of CREATE SPACE.
ghost use Rattle.std.specs.Prelude.{◌≡◌};
ghost use Rattle.ngql_parser.specs.Rules as rule;

use part_keys::VidKind;

/// An option of CREATE SPACE.
#[derive(Clone, Copy)]
pub enum Opt {
    /// The number of parts.
    Parts(u32),
    /// The number of replicas.
    Factor(u32),
    /// The kind of ids.
    Ids(VidKind),
}

/// What the options of CREATE SPACE say.
#[derive(Clone, Copy)]
pub struct Options {
    /// The number of parts.
    pub parts: u32,
    /// The number of replicas.
    pub factor: u32,
    /// The kind of ids.
    pub ids: VidKind,
}

/// What options say, where 10 parts of 1 replica with numbers as ids are said by none.
pub fn options_of(opts: &[Opt]) -> Options
    ensures { result ≡ rule.options_of opts.now }
{
    let mut made = Options {
        parts: 10,
        factor: 1,
        ids: VidKind::Num,
    };
    for opt in opts {
        made = with_opt(made, *opt);
    }
    made
}

fn with_opt(options: Options, opt: Opt) -> Options
    ensures { result ≡ rule.with_opt options opt }
{
    match opt {
        Opt::Parts(parts) => Options { parts, ..options },
        Opt::Factor(factor) => Options { factor, ..options },
        Opt::Ids(ids) => Options { ids, ..options },
    }
}

/// A number of an option.
pub fn small(number: i64) -> u8
    ensures { result ≡ rule.small number }
{
    if number >= 0 && number <= 64 {
        number as u8
    } else {
        0
    }
}
