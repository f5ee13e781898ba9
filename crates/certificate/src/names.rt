//! The terminations that the keys of a certificate's cuts name.
ghost use Rattle.std.specs.Prelude.{◌≡◌, option_map};
ghost use Rattle.certificate.specs.Naming.{different, pair_named, pair_of, parts_of, termination_named};

use configuration::spots::is_same;
use mg_model::commands::Termination;
use script_table::Script;

/// The termination of a name.
fn termination(script: &Script, name: &str) -> Option<Termination>
    ensures { result ≡ termination_named script.now name.now }
{
    if let Some(line) = script.line(name) {
        return Some(Termination::Line(line));
    }
    let ephemeral = script.ephemeral(name)?;
    Some(Termination::Ephemeral(ephemeral))
}

/// The two parts of a text round its first `>`.
fn parts(text: &str) -> Option<(&str, &str)>
    ensures { option_map (λ p. (p.0.now, p.1.now)) result ≡ parts_of text.now }
{
    text.split_once('>')
}

/// The two different terminations that a key of the cuts names.
pub(crate) fn pair(script: &Script, key: &str) -> Option<(Termination, Termination)>
    ensures { result ≡ pair_named script.now key.now }
{
    let (source, sink) = parts(key)?;
    let source = termination(script, source)?;
    let sink = termination(script, sink)?;
    if is_same(&source, &sink) {
        return None;
    }
    Some((source, sink))
}
