// Names for what many lines say, and for lines that many cases have.
use crate::fault::LineFault;
use crate::line::first_word;
use std::alloc::{AllocError, Global};

/// Names, each with what it stands for: a text, or the lines of a part.
#[derive(Drop)]
pub struct Named {
    /// The name, a blank, and what it stands for.
    entries: Vec<String>,
    /// Whether the last one is a part whose lines are being told.
    is_open: bool,
}

// A text of one's own, in which a sign for a blank at the end is the blank.
fn ended(alloc: Global, text: &str) -> Result<String, AllocError> {
    let Some(head) = text.strip_suffix('␣') else {
        return String::from_str(alloc, text);
    };
    let mut ended = String::from_str(alloc, head)?;
    ended.push(' ')?;
    Ok(ended)
}

impl Named {
    /// No name.
    pub fn new(alloc: Global) -> Named {
        Named {
            entries: Vec::new(alloc),
            is_open: false,
        }
    }

    /// `name NAME TEXT`: the name stands for the text.
    pub fn add(&mut self, alloc: Global, entry: &str) -> Result<(), LineFault> {
        self.entries.push(String::from_str(alloc, entry)?)?;
        Ok(())
    }

    // `part NAME`: what follows up to `whole` are the lines of that part.
    fn begin(&mut self, alloc: Global, name: &str) -> Result<(), LineFault> {
        self.add(alloc, name)?;
        self.is_open = true;
        self.keep_text(" ")
    }

    // Adds to the last entry.
    fn keep_text(&mut self, text: &str) -> Result<(), LineFault> {
        let last = self.entries.last_mut().ok_or(LineFault::NotNamed)?;
        last.push_str(text)?;
        Ok(())
    }

    // Keeps a line of the part that is being told. It may take another one's lines.
    fn keep_in(&mut self, alloc: Global, line: &str) -> Result<(), LineFault> {
        let (verb, behind) = first_word(line);
        match verb {
            "whole" => {
                self.is_open = false;
                Ok(())
            }
            "take" => {
                let lines = self.lines_of(alloc, behind)?;
                self.keep_text(&lines)
            }
            _ => {
                self.keep_text(line)?;
                self.keep_text("\n")
            }
        }
    }

    /// Keeps a line that belongs to a part, if it does.
    pub fn keep(&mut self, alloc: Global, line: &str) -> Result<bool, LineFault> {
        if self.is_open {
            self.keep_in(alloc, line)?;
            return Ok(true);
        }
        match line.strip_prefix("part ") {
            Some(name) => self.begin(alloc, name)?,
            None => return Ok(false),
        }
        Ok(true)
    }

    // What a name stands for, if it was given.
    fn meant(&self, name: &str) -> Option<&str> {
        for entry in &self.entries {
            let (known, meant) = first_word(entry);
            if known == name {
                return Some(meant);
            }
        }
        None
    }

    /// What `$NAME` stands for; every other text is itself, but that `␣` at its end is a blank.
    pub fn text_of(&self, alloc: Global, text: &str) -> Result<String, LineFault> {
        let Some(name) = text.strip_prefix('$') else {
            return Ok(ended(alloc, text)?);
        };
        let meant = self.meant(name).ok_or(LineFault::NotNamed)?;
        Ok(String::from_str(alloc, meant)?)
    }

    /// `take NAME ROOT`: the lines of a part, with a root in the place of each `%`.
    pub fn lines_of(&self, alloc: Global, behind: &str) -> Result<String, LineFault> {
        let (name, root) = first_word(behind);
        let lines = self.meant(name).ok_or(LineFault::NotNamed)?;
        Ok(lines.replace(alloc, '%', root)?)
    }
}
