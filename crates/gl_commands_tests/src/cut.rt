//! Texts that can't be read to their end.
ghost use Rattle.gl_io.specs.Positions.{untold};

use gl_io::{Failed, Source};

/// Gives its text once, and then fails.
#[derive(Drop)]
pub struct Cut<'a> {
    /// The text that no read has given yet.
    pub rest: &'a [u8],
    /// Whether a read has failed.
    pub is_failed: bool,
}

impl Source for Cut<'_> {
    ghost position = { λ _. untold };

    ghost failed = { λ s. s.is_failed };

    fn read(&mut self, buffer: &mut [u8]) -> Result<usize, Failed> {
        let count = self.rest.len().min(buffer.len());
        if count == 0 {
            self.is_failed = true;
            return Err(Failed);
        }
        buffer[..count].copy_from_slice(&self.rest[..count]);
        self.rest = &self.rest[count..];
        Ok(count)
    }
}
