use thiserror::Error;

/// Why a call leaves a page as it was.
#[derive(Clone, Copy, Debug, PartialEq, Eq, Error)]
pub enum PageRefusal {
    /// The place isn't there, or isn't as the call needs it.
    #[error("no such place on the page")]
    BadPlace,
    /// The operation's new lower end would pass its new upper end.
    #[error("no room on the page")]
    NoRoom,
    /// The page isn't well formed.
    #[error("the page is not well formed")]
    BadPage,
}

/// Why a record can't be redone on a page.
#[derive(Clone, Copy, Debug, PartialEq, Eq, Error)]
pub enum RedoWhy {
    /// The record's bytes are too short for its layout, or contradict it.
    #[error("the record's layout is short or contradicts itself")]
    Layout,
    /// A named line isn't there, or isn't as the operation needs it.
    #[error("a line that the record names is not as it needs it")]
    Place,
    /// An item doesn't fit.
    #[error("an item does not fit on the page")]
    Room,
    /// The page isn't well formed, or isn't of the manager's kind.
    #[error("the page is not of the form that the record needs")]
    PageShape,
}
