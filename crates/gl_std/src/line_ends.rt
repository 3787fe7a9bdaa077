//! Where the lines of a text end.
ghost use Rattle.std.specs.Prelude.{◌≡◌, ◌<◌, [], ◌∷◌, ◌++◌, length, Contains, MatchOption};
ghost use Rattle.gl_std.specs.Lines.{LF, ended_lines, lines, without_cr};

use crate::line::cut;
use bstr::ByteSlice;

/// The byte that ends a line.
pub(crate) const LF: u8 = b'\n';
/// The byte that is dropped just before the end of a line.
const CR: u8 = b'\r';

/// The first line of a text, without what ends it, and what follows it. Scans that line only.
pub(crate) fn next_line(text: &[u8]) -> Option<(&[u8], &[u8])>
    ensures { MatchOption result
        (lines text.now ≡ [])
        (λ p. (lines text.now ≡ p.0.now ∷ lines p.1.now)
        × (length p.1.now < length text.now)) }
{
    if text.is_empty() {
        return None;
    }
    match cut(text, LF) {
        Some((line, rest)) => Some((without_cr(line), rest)),
        None => Some((text, &text[text.len()..])),
    }
}

/// The line without the CR at its end, if it has one. Looks at its last byte alone.
pub fn without_cr(line: &[u8]) -> &[u8]
    ensures { result.now ≡ without_cr line.now }
{
    if line.is_empty() {
        return line;
    }
    if line[line.len() - 1] != CR {
        return line;
    }
    &line[..line.len() - 1]
}

/// The lines of a text that LF has ended: the text up to and with its last LF. Scans what follows them.
pub fn ended_lines(text: &[u8]) -> &[u8]
    ensures { result.now ≡ ended_lines text.now }
{
    match text.rfind_byte(LF) {
        Some(last) => &text[..last + 1],
        None => &[],
    }
}

/// What follows the lines of a text that LF has ended: the beginning of one. Scans that.
pub(crate) fn unended(text: &[u8]) -> &[u8]
    ensures parts { text.now ≡ ended_lines text.now ++ result.now }
    ensures unended { ¬ Contains result.now LF }
{
    match text.rfind_byte(LF) {
        Some(last) => &text[last + 1..],
        None => text,
    }
}
