// What differs from what is wanted.
use crate::fault::LineFault;
use std::alloc::{AllocError, Global};

/// What differs, a line for each difference, with the case that it stands in.
#[derive(Drop)]
pub struct Told {
    pub case: String,
    pub text: String,
}

impl Told {
    /// Nothing differs.
    pub fn new(alloc: Global) -> Told {
        Told {
            case: String::new(alloc),
            text: String::new(alloc),
        }
    }

    /// Tells a difference, by its pieces.
    pub fn tell(&mut self, pieces: &[&str]) -> Result<(), AllocError> {
        self.text.push_str(&self.case)?;
        self.text.push_str(": ")?;
        for piece in pieces {
            self.text.push_str(piece)?;
        }
        self.text.push_str("\n")
    }

    /// Tells where bytes aren't those of the text that is wanted.
    pub fn compare(
        &mut self,
        alloc: Global,
        what: &str,
        found: &[u8],
        wanted: &str,
    ) -> Result<(), LineFault> {
        if found == wanted.as_bytes() {
            return Ok(());
        }
        let found = String::from_utf8_lossy(alloc, found)?;
        self.tell(&[what, " has '", &found, "' in place of '", wanted, "'"])?;
        Ok(())
    }
}
