//! Cutting the input into its sections.
ghost use Rattle.std.specs.Prelude.{◌≡◌, ◌+◌, ◌-◌, ◌<◌, ◌≤◌, [], ◌∷◌, ◌++◌, length, take, drop, MatchOption, option_map, IsTrue};
ghost use Rattle.std.specs.Prelude.{◌==◌, position};
ghost use Rattle.program_rim.specs.Sections.{is_divider, lines_of, sections_of, pair_of, triple_of};

/// Whether a line, with its end, has two percent signs and nothing else. A carriage return may
/// stand before its end, and the last line may lack the end.
fn is_divider_line(line: &[u8]) -> bool
    ensures { result ≡ is_divider line.now }
{
    matches!(line, b"%%\n" | b"%%\r\n" | b"%%" | b"%%\r")
}

/// Where the first line feed stands.
fn line_feed(text: &[u8]) -> Option<usize>
    ensures { result ≡ position (λ byte. byte == 10) text.now }
{
    text.iter().position(|byte| *byte == b'\n')
}

/// Where the first line ends: behind its line feed, or at the end of the text.
fn line_end(text: &[u8]) -> usize
    requires { 0 < length text.now }
    ensures within { result ≤ length text.now }
    ensures some { 0 < result }
    ensures line { lines_of text.now ≡ take result text.now ∷ lines_of (drop result text.now) }
{
    match line_feed(text) {
        Some(place) => place + 1,
        None => text.len(),
    }
}

/// What stands before the first divider and what after it, or nothing where there is none.
fn cut(text: &[u8]) -> Option<(&[u8], &[u8])>
    ensures { MatchOption result (sections_of text.now ≡ text.now ∷ [])
        (λ parts. sections_of text.now ≡ parts.0.now ∷ sections_of parts.1.now) }
{
    let mut start = 0;
    while start < text.len() {
        let rest = &text[start..];
        let (line, after) = rest.split_at(line_end(rest));
        if is_divider_line(line) {
            return Some((&text[..start], after));
        }
        start += line.len();
    }
    None
}

/// The two sections of an input: the script and the certificate. Nothing where the input has
/// another number of sections.
pub fn two_sections(input: &[u8]) -> Option<(&[u8], &[u8])>
    ensures { option_map (λ parts. (parts.0.now, parts.1.now)) result ≡ pair_of (sections_of input.now) }
{
    let (script, rest) = cut(input)?;
    match cut(rest) {
        None => Some((script, rest)),
        Some(_) => None,
    }
}

/// The three sections of an input: the script, the certificate and the plan. Nothing where the
/// input has another number of sections.
pub fn three_sections(input: &[u8]) -> Option<(&[u8], &[u8], &[u8])>
    ensures { option_map (λ parts. (parts.0.now, parts.1.now, parts.2.now)) result ≡ triple_of (sections_of input.now) }
{
    let (script, rest) = cut(input)?;
    let (certificate, plan) = two_sections(rest)?;
    Some((script, certificate, plan))
}
