//! Runs of symbols, and the symbols that a position accepts.
ghost use Rattle.std.specs.Prelude.{◌≡◌, length, IfSome, ◌<◌};
ghost use Rattle.digits.specs.Symbols.{symbol_of, reaches, reached, position_of};

use mg_model::positions::Position;

/// The number of the last digit among the symbols.
pub(crate) const LAST_DIGIT: u8 = 9;

/// The symbols from `low` to `high`, both included. Digits are their own numbers, E is 10 and F is 11.
#[derive(Clone, Copy)]
pub(crate) struct Span {
    pub(crate) low: u8,
    pub(crate) high: u8,
}

/// The symbol that a byte writes.
#[tactic(auto, unfolding(crate::specs::Symbols::symbol_of))]
pub(crate) fn symbol(byte: u8) -> Option<u8>
    ensures { result ≡ symbol_of byte }
{
    match byte {
        b'0'..=b'9' => Some(byte - b'0'),
        b'E' | b'e' => Some(10),
        b'F' | b'f' => Some(11),
        _ => None,
    }
}

/// Whether one of the runs has the symbol.
fn is_reached(spans: &[Span], symbol: u8) -> bool
    ensures { result ≡ reached spans.now symbol }
{
    spans
        .iter()
        .any(|span| span.low <= symbol && symbol <= span.high)
}

/// The position that accepts the symbols of the runs.
pub(crate) fn accepting(spans: &[Span]) -> Position
    ensures { result ≡ position_of spans.now }
{
    let mut accepts = [false; 12];
    for symbol in 0..12u8 {
        accepts[symbol as usize] = is_reached(spans, symbol);
    }
    Position { accepts }
}
