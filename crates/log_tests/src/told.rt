//! What a row says, against which an answer is told piece by piece.
use std::fmt;
use std::fmt::{Debug, Display, Write};

/// What of a row's answer is still to be told, and whether what was told so far is as it says.
#[derive(Clone, Copy)]
pub struct Told<'a> {
    left: &'a str,
    is_same: bool,
}

impl<'a> Told<'a> {
    /// Nothing is told so far of this answer.
    pub fn new(meant: &'a str) -> Told<'a> {
        Told {
            left: meant,
            is_same: true,
        }
    }

    /// Whether all that the row says was told, and nothing else.
    pub fn is_all(&self) -> bool {
        self.is_same && self.left.is_empty()
    }

    /// Tells a text.
    pub fn text(&mut self, text: &str) {
        let answer = self.write_str(text);
        self.is_same &= answer.is_ok();
    }

    /// Tells a text and a value behind it.
    pub fn says<T: Display>(&mut self, before: &str, value: &T) {
        let answer = write!(self, "{before}{value}");
        self.is_same &= answer.is_ok();
    }

    /// Tells a text and a value behind it, as `Debug` shows it.
    pub fn shows<T: Debug>(&mut self, before: &str, value: &T) {
        let answer = write!(self, "{before}{value:?}");
        self.is_same &= answer.is_ok();
    }

    /// Tells what was read, as `Debug` shows it, or `none`.
    pub fn read<T: Debug + Drop>(&mut self, read: Option<T>) {
        match read {
            Some(value) => self.shows("", &value),
            None => self.text("none"),
        }
    }
}

/// Fails where the row says otherwise.
impl fmt::Write for Told<'_> {
    fn write_str(&mut self, text: &str) -> fmt::Result {
        match self.left.strip_prefix(text) {
            Some(left) => {
                self.left = left;
                Ok(())
            }
            None => Err(fmt::Error),
        }
    }
}
