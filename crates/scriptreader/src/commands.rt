//! The texts of commands.
ghost use Rattle.std.specs.Prelude.{◌≡◌, map, if◌then◌else◌, ◌||◌};
ghost use Rattle.mg_names.specs.Words.{topology_named};
ghost use Rattle.typed_values.specs.Shape.{Gives};
ghost use Rattle.scriptreader.specs.Texts.{command_of, add_of, modify_of, move_of, subtract_of, topology_of, options_from, no_options, with_option, with_mode, with_events, with_signals, with_remote, suits_line, suits_ephemeral};

use crate::syntax::{Options, WrittenCommand};
use crate::texts::{self, marked, name};
use mg_names::modes::Mode;
use mg_names::topologies::Topology;
use std::alloc::Global;
use typed_values::Missing;

/// The command that these words write.
#[tactic(auto, unfolding(crate::specs::Texts::command_of))]
pub(crate) fn command(alloc: Global, words: &[&str]) -> Result<WrittenCommand, Missing>
    ensures { Gives (λ c. c) result (command_of (map (λ w. w.now) words.now)) }
{
    let [verb, place, rest @ ..] = words else {
        return Err(Missing::Nothing);
    };
    match *verb {
        "add" => add(alloc, place, rest),
        "modify" => modify(alloc, place, rest),
        "move" => to_move(alloc, place, rest),
        "subtract" => subtract(alloc, place, rest),
        "topology" => topology(alloc, place, rest),
        _ => Err(Missing::Nothing),
    }
}

#[tactic(auto, unfolding(crate::specs::Texts::add_of))]
fn add(alloc: Global, place: &str, rest: &[&str]) -> Result<WrittenCommand, Missing>
    ensures { Gives (λ c. c) result (add_of place.now (map (λ w. w.now) rest.now)) }
{
    let [termination, words @ ..] = rest else {
        return Err(Missing::Nothing);
    };
    let (create, context) = marked(place);
    let context = name(alloc, context)?;
    let (own, termination) = marked(termination);
    let termination = name(alloc, termination)?;
    let options = options(alloc, words)?;
    if !options.suits(own) {
        return Err(Missing::Nothing);
    }
    Ok(WrittenCommand::Add {
        create,
        context,
        own,
        name: termination,
        options,
    })
}

#[tactic(auto, unfolding(crate::specs::Texts::modify_of))]
fn modify(alloc: Global, place: &str, rest: &[&str]) -> Result<WrittenCommand, Missing>
    ensures { Gives (λ c. c) result (modify_of place.now (map (λ w. w.now) rest.now)) }
{
    let [termination, words @ ..] = rest else {
        return Err(Missing::Nothing);
    };
    let place = if place == "-" {
        None
    } else {
        Some(name(alloc, place)?)
    };
    let termination = name(alloc, termination)?;
    let options = options(alloc, words)?;
    if !options.suits_one() {
        return Err(Missing::Nothing);
    }
    Ok(WrittenCommand::Modify {
        place,
        name: termination,
        options,
    })
}

#[tactic(auto, unfolding(crate::specs::Texts::move_of))]
fn to_move(alloc: Global, place: &str, rest: &[&str]) -> Result<WrittenCommand, Missing>
    ensures { Gives (λ c. c) result (move_of place.now (map (λ w. w.now) rest.now)) }
{
    let [termination, words @ ..] = rest else {
        return Err(Missing::Nothing);
    };
    let context = name(alloc, place)?;
    let termination = name(alloc, termination)?;
    let options = options(alloc, words)?;
    if !options.suits_one() {
        return Err(Missing::Nothing);
    }
    Ok(WrittenCommand::Move {
        context,
        name: termination,
        options,
    })
}

#[tactic(auto, unfolding(crate::specs::Texts::subtract_of))]
fn subtract(alloc: Global, place: &str, rest: &[&str]) -> Result<WrittenCommand, Missing>
    ensures { Gives (λ c. c) result (subtract_of place.now (map (λ w. w.now) rest.now)) }
{
    let [termination] = rest else {
        return Err(Missing::Nothing);
    };
    let context = name(alloc, place)?;
    if *termination == "*" {
        return Ok(WrittenCommand::SubtractAll { context });
    }
    let termination = name(alloc, termination)?;
    Ok(WrittenCommand::Subtract {
        context,
        name: termination,
    })
}

#[tactic(auto, unfolding(crate::specs::Texts::topology_of))]
fn topology(alloc: Global, place: &str, rest: &[&str]) -> Result<WrittenCommand, Missing>
    ensures { Gives (λ c. c) result (topology_of place.now (map (λ w. w.now) rest.now)) }
{
    let [first, second, word] = rest else {
        return Err(Missing::Nothing);
    };
    let context = name(alloc, place)?;
    let first = name(alloc, first)?;
    let second = name(alloc, second)?;
    let topology = read_topology(word)?;
    Ok(WrittenCommand::SetTopology {
        context,
        first,
        second,
        topology,
    })
}

fn read_topology(word: &str) -> Result<Topology, Missing>
    ensures { Gives (λ t. t) result (topology_named word.now) }
{
    Topology::read(word).ok_or(Missing::Nothing)
}

impl Options {
    /// Whether these are options of a line.
    pub fn suits_line(&self) -> bool
        ensures { result ≡ suits_line self.now }
    {
        self.remote.is_none()
    }

    /// Whether these are options of an ephemeral termination.
    pub fn suits_ephemeral(&self) -> bool
        ensures { result ≡ suits_ephemeral self.now }
    {
        self.events.is_none() && self.signals.is_none()
    }

    /// Whether these are options of what an Add takes or creates.
    fn suits(&self, ephemeral: bool) -> bool
        ensures { result ≡ (if ephemeral then suits_ephemeral self.now else suits_line self.now) }
    {
        if ephemeral {
            self.suits_ephemeral()
        } else {
            self.suits_line()
        }
    }

    /// Whether these are options of a line, or of an ephemeral termination.
    fn suits_one(&self) -> bool
        ensures { result ≡ (suits_line self.now || suits_ephemeral self.now) }
    {
        if self.suits_line() {
            return true;
        }
        self.suits_ephemeral()
    }
}

/// The options that these words write.
#[tactic(auto, unfolding(crate::specs::Texts::options_from))]
fn options(alloc: Global, words: &[&str]) -> Result<Options, Missing>
    ensures { Gives (λ c. c) result (options_from no_options (map (λ w. w.now) words.now)) }
{
    let mut options = Options {
        mode: None,
        events: None,
        signals: None,
        remote: None,
    };
    for word in words {
        options = with_option(alloc, options, word)?;
    }
    Ok(options)
}

/// The options and one more.
#[tactic(auto, unfolding(crate::specs::Texts::with_option))]
fn with_option(alloc: Global, options: Options, word: &str) -> Result<Options, Missing>
    ensures { Gives (λ c. c) result (with_option options word.now) }
{
    let Some((key, value)) = texts::split_once(word, '=') else {
        return Err(Missing::Nothing);
    };
    match key {
        "mode" => with_mode(options, value),
        "events" => with_events(alloc, options, value),
        "signals" => with_signals(alloc, options, value),
        "remote" => with_remote(alloc, options, value),
        _ => Err(Missing::Nothing),
    }
}

fn with_mode(mut options: Options, value: &str) -> Result<Options, Missing>
    ensures { Gives (λ c. c) result (with_mode options value.now) }
{
    let Some(mode) = Mode::read(value) else {
        return Err(Missing::Nothing);
    };
    if options.mode.is_some() {
        return Err(Missing::Nothing);
    }
    options.mode = Some(mode);
    Ok(options)
}

fn with_events(alloc: Global, mut options: Options, value: &str) -> Result<Options, Missing>
    ensures { Gives (λ c. c) result (with_events options value.now) }
{
    let value = name(alloc, value)?;
    if options.events.is_some() {
        return Err(Missing::Nothing);
    }
    options.events = Some(value);
    Ok(options)
}

fn with_signals(alloc: Global, mut options: Options, value: &str) -> Result<Options, Missing>
    ensures { Gives (λ c. c) result (with_signals options value.now) }
{
    let value = name(alloc, value)?;
    if options.signals.is_some() {
        return Err(Missing::Nothing);
    }
    options.signals = Some(value);
    Ok(options)
}

fn with_remote(alloc: Global, mut options: Options, value: &str) -> Result<Options, Missing>
    ensures { Gives (λ c. c) result (with_remote options value.now) }
{
    let value = name(alloc, value)?;
    if options.remote.is_some() {
        return Err(Missing::Nothing);
    }
    options.remote = Some(value);
    Ok(options)
}
