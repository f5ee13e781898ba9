//! Why a command is refused: the codes in their order, each with its own test.
ghost use Rattle.std.specs.Prelude.{◌≡◌, IsTrue, ◌↔◌, MatchOption};
ghost use Rattle.mg_model.specs.Board.{exists, place_in, place_of, ContextExists};
ghost use Rattle.mg_model.specs.Items.{LacksContext, names_nothing, remote_refused, lacks_termination, is_taken, is_misplaced, NoContextLeft, NoEphemeralLeft, EphemeralsUsedUp, IsUsedUp, IsLegal, IsRefused};
ghost use Rattle.contexts.specs.BoardValue.{board_of};
ghost use Rattle.contexts.specs.Steps.{IsUnknown, IsUnknownBut, NoneLeftFor, row_of_first, row_of_second};

use crate::board::Board;
use crate::same::is_same;
use mg_model::items::{Added, Item, RemoteSetting};
use mg_model::rows::Row;
use mg_names::codes::Code;
use mg_names::identifiers::{ContextId, TermId};

/// The number of the context in which a row stands; 0 where there is none.
fn place_in(row: Option<Row>) -> u32
    ensures { result ≡ place_in row }
{
    match row {
        Some(row) => row.place.0,
        None => 0,
    }
}

impl Board {
    /// Whether a context doesn't exist.
    fn is_unknown(&self, context: ContextId) -> bool
        ensures { IsTrue result ↔ IsUnknown (board_of self.now) context.0 }
    {
        !self.has_context(context.0)
    }

    /// Whether a context doesn't exist and isn't another one that may be named.
    fn is_unknown_but(&self, context: ContextId, but: ContextId) -> bool
        ensures { IsTrue result ↔ IsUnknownBut (board_of self.now) context.0 but.0 }
    {
        if context.0 == but.0 {
            return false;
        }
        self.is_unknown(context)
    }

    /// 411: the context doesn't exist.
    fn lacks_context(&self, item: &Item) -> bool
        ensures { IsTrue result ↔ LacksContext (board_of self.now) item.now }
    {
        match *item {
            Item::Add { context, .. } => self.is_unknown_but(context, ContextId::CHOOSE),
            Item::Modify { context, .. } => self.is_unknown_but(context, ContextId::NULL),
            Item::Move { context, .. } => self.is_unknown(context),
            Item::Subtract { context, .. } => self.is_unknown(context),
            Item::SubtractAll { context } => self.is_unknown(context),
            Item::SetTopology { context, .. } => self.is_unknown(context),
        }
    }

    /// Whether a termination exists.
    #[tactic(auto, unfolding(crate::specs::BoardValue::board_of))]
    pub(crate) fn exists(&self, t: TermId) -> bool
        ensures { result ≡ exists (board_of self.now) t }
    {
        self.get(t).is_some()
    }

    /// The number of the context of a termination; 0 where it doesn't exist.
    #[tactic(auto, unfolding(crate::specs::BoardValue::board_of))]
    pub(crate) fn place_of(&self, t: TermId) -> u32
        ensures { result ≡ place_of (board_of self.now) t }
    {
        match self.get(t) {
            Some(row) => row.place.0,
            None => 0,
        }
    }

    /// Whether a Remote names an ephemeral that doesn't exist.
    fn names_nothing(&self, remote: Option<RemoteSetting>) -> bool
        ensures { result ≡ names_nothing (board_of self.now) remote }
    {
        match remote {
            Some(RemoteSetting::Ephemeral(number)) => !self.exists(TermId::Eph(number)),
            _ => false,
        }
    }

    /// Whether a Remote can't be set.
    fn is_remote_refused(&self, t: &TermId, remote: Option<RemoteSetting>) -> bool
        ensures { result ≡ remote_refused (board_of self.now) t.now remote }
    {
        match *t {
            TermId::Line(_) => remote.is_some(),
            TermId::Eph(_) => self.names_nothing(remote),
        }
    }

    /// The row of the termination that a command names, of the first one where it names two. `None` where it doesn't exist.
    #[tactic(auto, unfolding(crate::specs::BoardValue::board_of))]
    fn row_of_first(&self, item: &Item) -> Option<Row>
        ensures { result ≡ row_of_first (board_of self.now) item.now }
    {
        match *item {
            Item::Add {
                added: Added::Line(line),
                ..
            } => self.get(TermId::Line(line)),
            Item::Add {
                added: Added::NewEphemeral,
                ..
            } => None,
            Item::Modify { termination, .. } => self.get(termination),
            Item::Move { termination, .. } => self.get(termination),
            Item::Subtract { termination, .. } => self.get(termination),
            Item::SubtractAll { .. } => None,
            Item::SetTopology { first, .. } => self.get(first),
        }
    }

    /// The row of the second termination that a command names. `None` where it doesn't exist.
    #[tactic(auto, unfolding(crate::specs::BoardValue::board_of))]
    fn row_of_second(&self, item: &Item) -> Option<Row>
        ensures { result ≡ row_of_second (board_of self.now) item.now }
    {
        match *item {
            Item::SetTopology { second, .. } => self.get(second),
            _ => None,
        }
    }

    /// 430: a termination or the Remote is unknown.
    fn lacks_termination(&self, item: &Item, first: Option<Row>, second: Option<Row>) -> bool
        requires first { first ≡ row_of_first (board_of self.now) item.now }
        requires second { second ≡ row_of_second (board_of self.now) item.now }
        ensures { result ≡ lacks_termination (board_of self.now) item.now }
    {
        match *item {
            Item::Add {
                added: Added::Line(line),
                settings,
                ..
            } => first.is_none() || self.is_remote_refused(&TermId::Line(line), settings.remote),
            Item::Add {
                added: Added::NewEphemeral,
                settings,
                ..
            } => self.names_nothing(settings.remote),
            Item::Modify {
                termination,
                settings,
                ..
            } => first.is_none() || self.is_remote_refused(&termination, settings.remote),
            Item::Move {
                termination,
                settings,
                ..
            } => first.is_none() || self.is_remote_refused(&termination, settings.remote),
            Item::Subtract { .. } => first.is_none(),
            Item::SubtractAll { .. } => false,
            Item::SetTopology { .. } => first.is_none() || second.is_none(),
        }
    }

    /// 433: the line that is added stands in a context.
    fn is_taken(&self, item: &Item, first: Option<Row>) -> bool
        requires first { first ≡ row_of_first (board_of self.now) item.now }
        ensures { result ≡ is_taken (board_of self.now) item.now }
    {
        match *item {
            Item::Add {
                added: Added::Line(_),
                ..
            } => place_in(first) != ContextId::NULL.0,
            _ => false,
        }
    }

    /// 435: the termination isn't where the command has to find it.
    fn is_misplaced(&self, item: &Item, first: Option<Row>, second: Option<Row>) -> bool
        requires first { first ≡ row_of_first (board_of self.now) item.now }
        requires second { second ≡ row_of_second (board_of self.now) item.now }
        ensures { result ≡ is_misplaced (board_of self.now) item.now }
    {
        let place = place_in(first);
        match *item {
            Item::Add { .. } => false,
            Item::Modify { context, .. } => place != context.0,
            Item::Move { context, .. } => place == ContextId::NULL.0 || place == context.0,
            Item::Subtract { context, .. } => place != context.0,
            Item::SubtractAll { .. } => false,
            Item::SetTopology {
                context,
                first,
                second: other,
                ..
            } => {
                place != context.0 || (place_in(second) != context.0 || is_same(&first, &other))
            }
        }
    }

    /// Whether the number of each context is used.
    fn has_no_context_left(&self) -> bool
        ensures { IsTrue result ↔ NoContextLeft (board_of self.now) }
    {
        self.members.is_full()
    }

    /// Whether the number of each ephemeral is used.
    #[tactic(auto, unfolding(crate::specs::BoardValue::board_of))]
    fn has_no_ephemeral_left(&self) -> bool
        ensures { IsTrue result ↔ NoEphemeralLeft (board_of self.now) }
    {
        self.terms.is_full()
    }

    /// Whether no number is left for a new ephemeral.
    fn has_none_left_for(&self, added: &Added) -> bool
        ensures { IsTrue result ↔ EphemeralsUsedUp (board_of self.now) added.now }
    {
        match *added {
            Added::Line(_) => false,
            Added::NewEphemeral => self.has_no_ephemeral_left(),
        }
    }

    /// Whether no number is left for what an Add creates.
    fn is_add_used_up(&self, context: ContextId, added: &Added) -> bool
        ensures { IsTrue result ↔ NoneLeftFor (board_of self.now) context.0 added.now }
    {
        if context == ContextId::CHOOSE && self.has_no_context_left() {
            return true;
        }
        self.has_none_left_for(added)
    }

    /// 510: no number is left for what the command creates.
    fn is_used_up(&self, item: &Item) -> bool
        ensures { IsTrue result ↔ IsUsedUp (board_of self.now) item.now }
    {
        match *item {
            Item::Add { context, added, .. } => self.is_add_used_up(context, &added),
            _ => false,
        }
    }

    /// The code that refuses a command: the first one that applies, in the order 411, 430, 433, 435, 510 (this profile's own);
    /// `None` for a command that is legal. 510 comes only where no number is left.
    pub fn refusal(&self, item: &Item) -> Option<Code>
        ensures { MatchOption result (IsLegal (board_of self.now) item.now) (IsRefused (board_of self.now) item.now) }
    {
        if self.lacks_context(item) {
            return Some(Code::UnknownContext);
        }
        let first = self.row_of_first(item);
        let second = self.row_of_second(item);
        if self.lacks_termination(item, first, second) {
            return Some(Code::UnknownTermination);
        }
        if self.is_taken(item, first) {
            return Some(Code::AlreadyInContext);
        }
        if self.is_misplaced(item, first, second) {
            return Some(Code::NotInContext);
        }
        if self.is_used_up(item) {
            return Some(Code::InsufficientResources);
        }
        None
    }
}
