// The lines of causes without values, which take no memory.
ghost use Rattle.std.specs.Prelude.{◌≡◌};
ghost use Rattle.cause_lines.specs.Lines.{fixed_line};

use commands::CommandName;

/// A cause without values.
#[derive(Clone, Copy, Debug, PartialEq, Eq)]
pub enum Fixed {
    Usage,
    DotDot,
    PathsOverlap,
    NoCommonAncestor,
    ReadFault,
    WriteFault,
    SinkFault,
    OutOfMemory,
}

macro_rules! lines {
    ($name:literal, $fixed:expr) => {
        match $fixed {
            Fixed::Usage => concat!($name, ": error: Usage\n"),
            Fixed::DotDot => concat!($name, ": error: DotDot\n"),
            Fixed::PathsOverlap => concat!($name, ": error: PathsOverlap\n"),
            Fixed::NoCommonAncestor => concat!($name, ": error: NoCommonAncestor\n"),
            Fixed::ReadFault => concat!($name, ": error: ReadFault\n"),
            Fixed::WriteFault => concat!($name, ": error: WriteFault\n"),
            Fixed::SinkFault => concat!($name, ": error: SinkFault\n"),
            Fixed::OutOfMemory => concat!($name, ": error: OutOfMemory\n"),
        }
    };
}

/// The line of a cause without values.
#[tactic(auto, unfolding(crate::specs::Lines::fixed_line, commands::specs::Name::name_text))]
pub fn fixed_line(name: Option<CommandName>, fixed: Fixed) -> &'static str
    ensures { result.now ≡ fixed_line name fixed }
{
    match name {
        None => lines!("wal_tools", fixed),
        Some(CommandName::PgRewind) => lines!("pg_rewind", fixed),
        Some(CommandName::PgWaldump) => lines!("pg_waldump", fixed),
        Some(CommandName::PgControldata) => lines!("pg_controldata", fixed),
        Some(CommandName::PgResetwal) => lines!("pg_resetwal", fixed),
        Some(CommandName::PgArchivecleanup) => lines!("pg_archivecleanup", fixed),
        Some(CommandName::PgWalreplay) => lines!("pg_walreplay", fixed),
        Some(CommandName::PgWalcompare) => lines!("pg_walcompare", fixed),
        Some(CommandName::Pair) => lines!("pair", fixed),
    }
}
