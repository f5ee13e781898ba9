//! The collector of a line, beside the list that has its digit map.
ghost use Rattle.std.specs.Prelude.{◌≡◌, [], option_map};
ghost use Rattle.mg_model.specs.DigitMaps.{collecting, with_symbol, with_pause};
ghost use Rattle.mg_model.specs.LineEvents.{map_in};
ghost use Rattle.digits.specs.Steps.{told};
ghost use Rattle.line_events.specs.Collecting.{digits_in, is_active, IsFollowed};

use crate::list::EventList;
use digits::{Collector, Step};
use mg_names::symbols::Symbol;

/// A collector for the digit map of a list, if it has one.
pub(crate) fn start(list: &EventList) -> Option<Collector>
    ensures empty { digits_in result ≡ collecting [] }
    ensures followed { IsFollowed (map_in list.now) result }
{
    match list.map() {
        Some(map) => Some(Collector::start(map)),
        None => None,
    }
}

/// An equal one.
pub(crate) fn copy(collector: &Option<Collector>) -> Option<Collector>
    ensures { result ≡ collector.now }
{
    match collector {
        Some(collector) => Some(collector.copy()),
        None => None,
    }
}

/// A symbol is dialled; `None` where the list has no digit map.
pub(crate) fn digit(
    list: &EventList,
    collector: &mut Option<Collector>,
    symbol: Symbol,
) -> Option<Step>
    requires { IsFollowed (map_in list.now) collector.old }
    ensures steps { option_map (told (digits_in collector.new)) result ≡ option_map (λ map. with_symbol map (digits_in collector.old) symbol) (map_in list.now) }
    ensures followed { IsFollowed (map_in list.now) collector.new }
{
    let Some(map) = list.map() else {
        return None;
    };
    let Some(collector) = collector else {
        return None;
    };
    Some(collector.digit(map, symbol))
}

/// The timer ends; `None` where the list has no digit map.
pub(crate) fn pause(list: &EventList, collector: &mut Option<Collector>) -> Option<Step>
    requires { IsFollowed (map_in list.now) collector.old }
    ensures steps { option_map (told (digits_in collector.new)) result ≡ option_map (λ map. with_pause map (digits_in collector.old)) (map_in list.now) }
    ensures followed { IsFollowed (map_in list.now) collector.new }
{
    let Some(map) = list.map() else {
        return None;
    };
    let Some(collector) = collector else {
        return None;
    };
    Some(collector.pause(map))
}

/// Whether there is a map that isn't completed.
pub(crate) fn is_active(collector: &Option<Collector>) -> bool
    ensures { result ≡ is_active collector.now }
{
    match collector {
        Some(collector) => !collector.is_done(),
        None => false,
    }
}
