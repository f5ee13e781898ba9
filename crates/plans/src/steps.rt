//! The texts of steps.
ghost use Rattle.std.specs.Prelude.{◌≡◌, ◌≤◌, map, IfSome};
ghost use Rattle.std.specs.List.{list_all};
ghost use Rattle.plans.specs.Texts.{is_digit, is_numeral, number_in, message_number, command_place, alone, line_named, line_in, dialled_in, ended_in, which_in, refusal_in, executed_in, step_of};

use mg_model::plans::PlanStep;
use mg_names::signals::Signal;
use mg_names::slots::Slot;
use mg_names::symbols::Symbol;
use script_table::Script;

/// Whether each byte is a digit.
fn are_digits(bytes: &[u8]) -> bool
    ensures { result ≡ list_all (λ byte. is_digit byte) bytes.now }
{
    bytes.iter().all(|byte| byte.is_ascii_digit())
}

/// Whether a text is decimal digits without leading zeros.
#[tactic(auto, unfolding(crate::specs::Texts::is_numeral))]
fn is_numeral(text: &str) -> bool
    ensures { result ≡ is_numeral text.now }
{
    let bytes = text.as_bytes();
    if bytes.is_empty() {
        return false;
    }
    are_digits(bytes) && (bytes.len() == 1 || bytes[0] != b'0')
}

/// The number that a text writes, if it is within bounds.
fn number(text: &str, least: u32, most: u32) -> Option<u32>
    ensures number { result ≡ number_in least most text.now }
    ensures bounded { IfSome result (λ number. number ≤ most) }
{
    if !is_numeral(text) {
        return None;
    }
    let Ok(number) = text.parse::<u32>() else {
        return None;
    };
    if number < least || most < number {
        return None;
    }
    Some(number)
}

/// The number of a message, from 1.
fn message_number(text: &str) -> Option<u32>
    ensures { result ≡ message_number text.now }
{
    number(text, 1, u32::MAX)
}

/// The place of a command, to 255.
fn command_place(text: &str) -> Option<u8>
    ensures { result ≡ command_place text.now }
{
    let place = number(text, 0, 255)?;
    Some(place as u8)
}

/// A step, where no word follows.
fn alone(step: PlanStep, words: &[&str]) -> Option<PlanStep>
    ensures { result ≡ alone step (map (λ w. w.now) words.now) }
{
    if words.is_empty() { Some(step) } else { None }
}

/// The line of a name.
#[tactic(auto, unfolding(crate::specs::Texts::line_named))]
fn line_named(script: &Script, name: &str) -> Option<Slot>
    ensures { result ≡ line_named script.now.lines name.now }
{
    script.line(name)
}

/// The line that these words name.
#[tactic(auto, unfolding(crate::specs::Texts::line_in))]
fn line(script: &Script, words: &[&str]) -> Option<Slot>
    ensures { result ≡ line_in script.now.lines (map (λ w. w.now) words.now) }
{
    let [name] = words else {
        return None;
    };
    line_named(script, name)
}

#[tactic(auto, unfolding(crate::specs::Texts::dialled_in))]
fn dialled(script: &Script, words: &[&str]) -> Option<PlanStep>
    ensures { result ≡ dialled_in script.now.lines (map (λ w. w.now) words.now) }
{
    let [name, symbol] = words else {
        return None;
    };
    let line = line_named(script, name)?;
    let symbol = Symbol::read(symbol)?;
    Some(PlanStep::Dials(line, symbol))
}

#[tactic(auto, unfolding(crate::specs::Texts::ended_in))]
fn ended(script: &Script, words: &[&str]) -> Option<PlanStep>
    ensures { result ≡ ended_in script.now.lines (map (λ w. w.now) words.now) }
{
    let [name, signal] = words else {
        return None;
    };
    let line = line_named(script, name)?;
    let signal = Signal::read(signal)?;
    Some(PlanStep::Ends(line, signal))
}

/// The number of a message that these words give, if they give one.
#[tactic(auto, unfolding(crate::specs::Texts::which_in))]
fn which(words: &[&str]) -> Option<Option<u32>>
    ensures { result ≡ which_in (map (λ w. w.now) words.now) }
{
    match words {
        [] => Some(None),
        [word] => Some(Some(message_number(word)?)),
        _ => None,
    }
}

/// The place of the command that these words refuse, if they refuse one.
#[tactic(auto, unfolding(crate::specs::Texts::refusal_in))]
fn refusal(words: &[&str]) -> Option<Option<u8>>
    ensures { result ≡ refusal_in (map (λ w. w.now) words.now) }
{
    match words {
        [] => Some(None),
        [word, place] => {
            if *word != "refuse" {
                return None;
            }
            Some(Some(command_place(place)?))
        }
        _ => None,
    }
}

#[tactic(auto, unfolding(crate::specs::Texts::executed_in))]
fn executed(words: &[&str]) -> Option<PlanStep>
    ensures { result ≡ executed_in (map (λ w. w.now) words.now) }
{
    let [word, rest @ ..] = words else {
        return Some(PlanStep::Executes(None, None));
    };
    if *word == "refuse" {
        return Some(PlanStep::Executes(None, refusal(words)?));
    }
    let number = message_number(word)?;
    Some(PlanStep::Executes(Some(number), refusal(rest)?))
}

/// The step that these words write.
#[tactic(auto, unfolding(crate::specs::Texts::step_of))]
pub(crate) fn step(script: &Script, words: &[&str]) -> Option<PlanStep>
    ensures { result ≡ step_of script.now.lines (map (λ w. w.now) words.now) }
{
    let [word, rest @ ..] = words else {
        return None;
    };
    // The words that most plans have most of come first: they are compared in this order.
    match *word {
        "execute" => executed(rest),
        "reply" => Some(PlanStep::TakesReply(which(rest)?)),
        "note" => Some(PlanStep::TakesNote(which(rest)?)),
        "off" => Some(PlanStep::GoesOff(line(script, rest)?)),
        "on" => Some(PlanStep::GoesOn(line(script, rest)?)),
        "flash" => Some(PlanStep::Flashes(line(script, rest)?)),
        "pause" => Some(PlanStep::Pauses(line(script, rest)?)),
        "digit" => dialled(script, rest),
        "end" => ended(script, rest),
        "pass" => alone(PlanStep::Passes, rest),
        "timer" => alone(PlanStep::TimesOut, rest),
        "hear" => alone(PlanStep::Hears, rest),
        "begin" => alone(PlanStep::Begins, rest),
        "restart" => alone(PlanStep::Restarts, rest),
        _ => None,
    }
}
