// The entries below a root, in order.
ghost use Rattle.std.specs.Prelude.{◌≡◌, length, slice_get};
ghost use Rattle.std.specs.Option.{option_copied};
ghost use Rattle.file_walk.specs.Listed.{AreListed, entries_in};

use crate::entry::Entry;
use std::marker::Model;

/// An entry, with the text of its path.
#[derive(Debug, Drop)]
pub(crate) struct Listed {
    pub(crate) text: String,
    pub(crate) entry: Entry,
}

/// What a walk told: the entries below a root, in the order in which it came to them. Contracts see
/// a list of `Entry`.
#[derive(Debug, Drop)]
pub struct Entries {
    listed: Vec<Listed>,
}

impl Model for Entries {
    ghost use Rattle.std.specs.Prelude.{List};
    ghost use Rattle.file_walk.specs.declared.entry.Entry.{Entry};
    ghost use Rattle.file_walk.specs.Listed.{entries_in, AreListed};

    ghost Value = { List Entry };

    ghost view = { λ e. entries_in e.listed.items };

    ghost invariant = { λ e. AreListed e.listed.items };
}

impl Entries {
    /// How many entries there are.
    pub fn len(&self) -> usize
        ensures value { result ≡ length self.now }
    {
        self.listed.len()
    }

    /// The entry at a place, counted from 0, or `None` at and past the length.
    pub fn get(&self, at: usize) -> Option<&Entry>
        ensures value { option_copied result ≡ slice_get self.now at }
    {
        match self.listed.get(at) {
            Some(listed) => Some(&listed.entry),
            None => None,
        }
    }

    /// The entries of a list.
    pub(crate) fn of_listed(listed: Vec<Listed>) -> Entries
        requires listed { AreListed listed.items }
        ensures value { result ≡ entries_in listed.items }
    {
        Entries { listed }
    }

    /// The list, with the texts.
    pub(crate) fn into_listed(self) -> Vec<Listed>
        ensures value { entries_in result.items ≡ self }
        ensures listed { AreListed result.items }
    {
        self.listed
    }
}
