//! A report and the text of its trace, one after the other.
ghost use Rattle.std.specs.Prelude.{◌≡◌, ◌==◌, length, ◌≤◌};
ghost use Rattle.std.specs.List.{before_first, after_first, position_or_len};

// Where the first LF stands, or the length where there is none.
fn first_line_end(input: &[u8]) -> usize
    ensures place { result ≡ position_or_len (λ byte. byte == 10) input.now }
    ensures within { result ≤ length input.now }
{
    for i in 0..input.len() {
        if input[i] == b'\n' {
            return i;
        }
    }
    input.len()
}

/// The report and the text of its trace, where they stand one after the other: the bytes before the
/// first LF, and those after it. Without an LF all is the report. Scans the report only.
pub fn split_input(input: &[u8]) -> (&[u8], &[u8])
    ensures report { result.0.now ≡ before_first (λ byte. byte == 10) input.now }
    ensures trace { result.1.now ≡ after_first (λ byte. byte == 10) input.now }
{
    let end = first_line_end(input);
    if end == input.len() {
        return (input, &[]);
    }
    (&input[..end], &input[end + 1..])
}
