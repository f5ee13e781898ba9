//! The texts of items, and of pairs that talk.
ghost use Rattle.std.specs.Prelude.{◌≡◌};
ghost use Rattle.mg_names.specs.Words.{strict_named};
ghost use Rattle.typed_values.specs.Shape.{Gives};
ghost use Rattle.scriptreader.specs.Texts.{plain_named, valued_named, item_of, pair_of};

use crate::syntax::{WrittenItem, WrittenPair};
use crate::texts::{self, name};
use mg_names::events::EventName;
use mg_names::strictness::Strict;
use std::alloc::Global;
use typed_values::Missing;

/// The item of an events list that a text writes.
#[tactic(auto, unfolding(crate::specs::Texts::item_of))]
pub(crate) fn item(alloc: Global, text: &str) -> Result<WrittenItem, Missing>
    ensures { Gives (λ i. i) result (item_of text.now) }
{
    match texts::split_once(text, '=') {
        Some((event, value)) => valued_item(alloc, event, value),
        None => plain_item(text),
    }
}

fn plain_item(text: &str) -> Result<WrittenItem, Missing>
    ensures { Gives (λ i. i) result (plain_named text.now) }
{
    match EventName::read(text) {
        Some(EventName::OnHook) => Ok(WrittenItem::OnHook(Strict::Exact)),
        Some(EventName::OffHook) => Ok(WrittenItem::OffHook(Strict::Exact)),
        Some(EventName::Flash) => Ok(WrittenItem::Flash),
        _ => Err(Missing::Nothing),
    }
}

fn valued_item(alloc: Global, event: &str, value: &str) -> Result<WrittenItem, Missing>
    ensures { Gives (λ i. i) result (valued_named event.now value.now) }
{
    match EventName::read(event) {
        Some(EventName::OnHook) => Ok(WrittenItem::OnHook(strictness(value)?)),
        Some(EventName::OffHook) => Ok(WrittenItem::OffHook(strictness(value)?)),
        Some(EventName::DigitMapCompletion) => Ok(WrittenItem::Digits(name(alloc, value)?)),
        _ => Err(Missing::Nothing),
    }
}

fn strictness(value: &str) -> Result<Strict, Missing>
    ensures { Gives (λ s. s) result (strict_named value.now) }
{
    Strict::read(value).ok_or(Missing::Nothing)
}

/// The pair of lines that a text writes.
#[tactic(auto, unfolding(crate::specs::Texts::pair_of))]
pub(crate) fn pair(alloc: Global, text: &str) -> Result<WrittenPair, Missing>
    ensures { Gives (λ p. p) result (pair_of text.now) }
{
    let Some((first, second)) = texts::split_once(text, '-') else {
        return Err(Missing::Nothing);
    };
    let first = name(alloc, first)?;
    let second = name(alloc, second)?;
    Ok(WrittenPair { first, second })
}
