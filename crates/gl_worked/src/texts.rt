//! Texts that are put together.

/// Puts these parts at the end of the text. None where there was no memory for one.
pub fn put(text: &mut Vec<u8>, parts: &[&[u8]]) -> Option<()> {
    for part in parts {
        text.extend_from_slice(*part).ok()?;
    }
    Some(())
}
