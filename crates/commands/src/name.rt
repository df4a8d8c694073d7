// The commands by their names.
ghost use Rattle.std.specs.Prelude.{◌≡◌, map, string_bytes};
ghost use Rattle.commands.specs.Name.{named, name_of, name_text};

/// A command's name.
#[derive(Clone, Copy, Debug, PartialEq, Eq)]
pub enum CommandName {
    PgRewind,
    PgWaldump,
    PgControldata,
    PgResetwal,
    PgArchivecleanup,
    PgWalreplay,
    PgWalcompare,
    Pair,
}

/// The command that a word names.
#[tactic(auto, unfolding(crate::specs::Name::named))]
pub fn named(word: &str) -> Option<CommandName>
    ensures { result ≡ named word.now }
{
    if word == "pg_rewind" {
        Some(CommandName::PgRewind)
    } else if word == "pg_waldump" {
        Some(CommandName::PgWaldump)
    } else if word == "pg_controldata" {
        Some(CommandName::PgControldata)
    } else if word == "pg_resetwal" {
        Some(CommandName::PgResetwal)
    } else if word == "pg_archivecleanup" {
        Some(CommandName::PgArchivecleanup)
    } else if word == "pg_walreplay" {
        Some(CommandName::PgWalreplay)
    } else if word == "pg_walcompare" {
        Some(CommandName::PgWalcompare)
    } else if word == "pair" {
        Some(CommandName::Pair)
    } else {
        None
    }
}

/// The command that the first word names.
pub fn name_of(words: &[String]) -> Option<CommandName>
    ensures { result ≡ name_of (map string_bytes words.now) }
{
    match words {
        [] => None,
        [word, ..] => named(word),
    }
}

/// The command's name as it stands before a cause, which is `wal_tools` where there is none.
#[tactic(auto, unfolding(crate::specs::Name::name_text))]
pub fn name_text(name: Option<CommandName>) -> &'static str
    ensures { result.now ≡ name_text name }
{
    match name {
        None => "wal_tools",
        Some(CommandName::PgRewind) => "pg_rewind",
        Some(CommandName::PgWaldump) => "pg_waldump",
        Some(CommandName::PgControldata) => "pg_controldata",
        Some(CommandName::PgResetwal) => "pg_resetwal",
        Some(CommandName::PgArchivecleanup) => "pg_archivecleanup",
        Some(CommandName::PgWalreplay) => "pg_walreplay",
        Some(CommandName::PgWalcompare) => "pg_walcompare",
        Some(CommandName::Pair) => "pair",
    }
}
