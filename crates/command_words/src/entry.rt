//! One option, flag or word of a command.

/// Whether a value belongs to it.
#[derive(Clone, Copy, Debug, PartialEq, Eq)]
pub enum Takes {
    /// One value, as an option or a word has.
    Value,
    /// No value, as with a flag.
    Nothing,
}

/// An option, a flag, or, with neither letter nor long name, a word at its place.
#[derive(Clone, Copy, Debug)]
pub struct Entry {
    /// The name under which it is found.
    pub id: &'static str,
    /// Its letter, as in `-x`.
    pub letter: Option<char>,
    /// Its long name, as in `--name`.
    pub long: Option<&'static str>,
    /// Whether a value belongs to it.
    pub takes: Takes,
}

impl Entry {
    ghost use Rattle.std.specs.Prelude.{◌≡◌, option_map};
    ghost use Rattle.command_words.specs.Table.{flag, option, rule_of_entry, word};

    /// An option `-x V`, `--name V`, or both.
    pub fn option(id: &'static str, letter: Option<char>, long: Option<&'static str>) -> Entry
        ensures { rule_of_entry result ≡
            option id.entry.now letter (option_map (λ s. s.now) long.entry) }
    {
        let takes = Takes::Value;
        Entry {
            id,
            letter,
            long,
            takes,
        }
    }

    /// A flag `-x`, `--name`, or both.
    pub fn flag(id: &'static str, letter: Option<char>, long: Option<&'static str>) -> Entry
        ensures { rule_of_entry result ≡
            flag id.entry.now letter (option_map (λ s. s.now) long.entry) }
    {
        let takes = Takes::Nothing;
        Entry {
            id,
            letter,
            long,
            takes,
        }
    }

    /// A word at its place.
    pub fn word(id: &'static str) -> Entry
        ensures { rule_of_entry result ≡ word id.entry.now }
    {
        Entry::option(id, None, None)
    }
}
