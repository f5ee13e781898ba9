//! How the rows of terminations change in a command.
ghost use Rattle.std.specs.Prelude.{◌≡◌, true, IsTrue, is_some};
ghost use Rattle.mg_model.specs.Board.{place_in, row_with};
ghost use Rattle.terminations.specs.Table.{row_of, SameNumbers, cleared};
ghost use Rattle.terminations.specs.Rows.{fits};
ghost use Rattle.contexts.specs.Rows.{row_in, IsLine};

use mg_model::items::Settings;
use mg_names::identifiers::{ContextId, TermId};
use terminations::{IDLE, Terms};

/// Sets what a command sets on a termination.
pub(crate) fn apply(terms: &mut Terms, t: TermId, settings: &Settings)
    requires exists { IsTrue (is_some (row_of terms.old t)) }
    requires fits { fits t settings.now.remote ≡ true }
    ensures rows { row_of terms.new ≡ row_with (row_of terms.old) t (row_in (place_in (row_of terms.old t)) settings.now (row_of terms.old t)) }
    ensures numbers { SameNumbers terms.old terms.new }
{
    terms.set(t, None, settings);
}

/// Puts a termination into a context, from wherever it stands, and sets what a command sets on it.
pub(crate) fn place(terms: &mut Terms, t: TermId, context: ContextId, settings: &Settings)
    requires exists { IsTrue (is_some (row_of terms.old t)) }
    requires fits { fits t settings.now.remote ≡ true }
    ensures rows { row_of terms.new ≡ row_with (row_of terms.old) t (row_in context.0 settings.now (row_of terms.old t)) }
    ensures numbers { SameNumbers terms.old terms.new }
{
    terms.set(t, Some(context), settings);
}

/// Takes a termination out of its context for good: a line goes to the null context and is Inactive, an ephemeral is no more.
pub(crate) fn release(terms: &mut Terms, t: TermId)
    ensures rows { row_of terms.new ≡ row_with (row_of terms.old) t (cleared t (row_of terms.old t)) }
    ensures numbers { SameNumbers terms.old terms.new }
{
    match t {
        TermId::Line(_) => free_line(terms, t),
        TermId::Eph(_) => {
            let _ = terms.destroy(t);
        }
    }
}

/// A line goes to the null context and is Inactive.
fn free_line(terms: &mut Terms, t: TermId)
    requires { IsLine t }
    ensures rows { row_of terms.new ≡ row_with (row_of terms.old) t (cleared t (row_of terms.old t)) }
    ensures numbers { SameNumbers terms.old terms.new }
{
    terms.overwrite(t, IDLE);
}
