//! Reading a digit map from left to right.
ghost use Rattle.std.specs.Prelude.{◌≡◌, ◌+◌, ◌≤◌, ◌<◌, ◌^◌, ◌==◌, IfOk, map, length, position};
ghost use Rattle.mg_model.specs.Memory.{Answers};
ghost use Rattle.digits.specs.Faults.{is_memory};
ghost use Rattle.digits.specs.Reading.{all_of, rising, run_at, range_at, position_at, alternative_of, alternatives_of, parts, bytes_of, bar_before};

use crate::fault::MapFault;
use crate::span::{self, LAST_DIGIT, Span};
use mg_model::positions::Position;
use std::alloc::{AllocError, Global};

/// The run that two digits with `-` between them write, where the second is not lower.
#[tactic(auto, unfolding(crate::specs::Reading::rising))]
fn rising(low: u8, high: u8) -> Option<Span>
    ensures { result ≡ rising low high }
{
    if low.is_ascii_digit() && high.is_ascii_digit() && low <= high {
        return Some(Span {
            low: low - b'0',
            high: high - b'0',
        });
    }
    None
}

/// A run of symbols within a range that begins at the place `start`, and what follows the run.
#[tactic(auto, unfolding(crate::specs::Reading::run_at))]
fn run_at(text: &[u8], start: usize) -> Result<(Span, &[u8]), MapFault>
    requires { 0 < length text.now }
    ensures { Answers is_memory (λ x. (x.0, x.1.now)) result (run_at start text.now) }
{
    if text.len() > 2 && text[1] == b'-' {
        let Some(span) = rising(text[0], text[2]) else {
            return Err(MapFault::BadRange { at: start });
        };
        return Ok((span, &text[3..]));
    }
    let Some(symbol) = span::symbol(text[0]) else {
        return Err(MapFault::BadRange { at: start });
    };
    let span = Span {
        low: symbol,
        high: symbol,
    };
    Ok((span, &text[1..]))
}

/// The runs that stand between the brackets of a range.
fn runs(alloc: Global, content: &[u8], start: usize) -> Result<Vec<Span>, MapFault>
    ensures { Answers is_memory (λ v. v.items) result (all_of (run_at start) content.now) }
{
    let mut found = Vec::new(alloc);
    let mut rest = content;
    while !rest.is_empty() {
        let (span, after) = run_at(rest, start)?;
        found.push(span)?;
        rest = after;
    }
    Ok(found)
}

/// The place of the bracket that ends a range.
fn end_of(inside: &[u8]) -> Option<usize>
    ensures { result ≡ position (λ byte. byte == 93) inside.now }
{
    inside.iter().position(|byte| *byte == b']')
}

/// The range at the front of a text, from its bracket at the place `start`, and what follows it.
#[tactic(auto, unfolding(crate::specs::Reading::range_at))]
fn range_at(alloc: Global, text: &[u8], start: usize) -> Result<(Position, &[u8]), MapFault>
    requires { 0 < length text.now }
    ensures { Answers is_memory (λ x. (x.0, x.1.now)) result (range_at start text.now) }
{
    let inside = &text[1..];
    let Some(end) = end_of(inside) else {
        return Err(MapFault::BadRange { at: start });
    };
    if end == 0 {
        return Err(MapFault::BadRange { at: start });
    }
    let spans = runs(alloc, &inside[..end], start)?;
    Ok((span::accepting(spans.as_slice()), &inside[end + 1..]))
}

/// The position at the front of a text that ends at the place `end`, and what follows it.
#[tactic(auto, unfolding(crate::specs::Reading::position_at))]
fn position_at(alloc: Global, text: &[u8], end: usize) -> Result<(Position, &[u8]), MapFault>
    requires some { 0 < length text.now }
    requires within { length text.now ≤ end }
    ensures { Answers is_memory (λ x. (x.0, x.1.now)) result (position_at end text.now) }
{
    let start = end - text.len();
    let rest = &text[1..];
    let (low, high) = match text[0] {
        b'[' => return range_at(alloc, text, start),
        b'x' | b'X' => (0, LAST_DIGIT),
        byte => {
            let Some(symbol) = span::symbol(byte) else {
                return Err(MapFault::BadSymbol { at: start });
            };
            (symbol, symbol)
        }
    };
    Ok((span::accepting(&[Span { low, high }]), rest))
}

/// The positions of a text that ends at the place `end`.
fn positions(alloc: Global, text: &[u8], end: usize) -> Result<Vec<Position>, MapFault>
    requires { length text.now ≤ end }
    ensures { Answers is_memory (λ v. v.items) result (all_of (position_at end) text.now) }
{
    let mut found = Vec::new(alloc);
    let mut rest = text;
    while !rest.is_empty() {
        let (position, after) = position_at(alloc, rest, end)?;
        found.push(position)?;
        rest = after;
    }
    Ok(found)
}

/// The positions of an alternative that begins at the place `start`.
#[tactic(auto, unfolding(crate::specs::Reading::alternative_of))]
fn alternative(alloc: Global, text: &[u8], start: usize) -> Result<Vec<Position>, MapFault>
    requires { start + length text.now < 2 ^ 64 }
    ensures { Answers is_memory (λ v. v.items) result (alternative_of start text.now) }
{
    if text.is_empty() {
        return Err(MapFault::Empty);
    }
    positions(alloc, text, start + text.len())
}

/// The parts of a text between its bars.
fn parts(alloc: Global, text: &[u8]) -> Result<Vec<&[u8]>, AllocError>
    ensures { IfOk result (λ v. map (λ part. part.now) v.items ≡ parts text.now) }
{
    text.split(|byte| *byte == b'|').collect(alloc)
}

/// How many bars stand right before a part.
fn bars_before(index: usize) -> usize
    ensures { result ≡ bar_before index }
{
    if index == 0 { 0 } else { 1 }
}

/// The alternatives that these parts write, of which the first begins at the place `start`.
fn each(alloc: Global, parts: &[&[u8]], start: usize) -> Result<Vec<Vec<Position>>, MapFault>
    requires { start + bytes_of (map (λ part. part.now) parts.now) ≤ 2 ^ 64 }
    ensures { Answers is_memory (λ v. map (λ a. a.items) v.items) result (alternatives_of start (map (λ part. part.now) parts.now)) }
{
    let mut found = Vec::new(alloc);
    let mut place = start;
    for (index, part) in parts.iter().enumerate() {
        let part: &[u8] = part;
        let first = place + bars_before(index);
        let positions = alternative(alloc, part, first)?;
        found.push(positions)?;
        place = first + part.len();
    }
    Ok(found)
}

/// The alternatives of a text without parentheses that begins at the place `start`.
pub(crate) fn alternatives(
    alloc: Global,
    text: &[u8],
    start: usize,
) -> Result<Vec<Vec<Position>>, MapFault>
    requires { start + length text.now < 2 ^ 64 }
    ensures { Answers is_memory (λ v. map (λ a. a.items) v.items) result (alternatives_of start (parts text.now)) }
{
    let parts = parts(alloc, text)?;
    each(alloc, parts.as_slice(), start)
}
