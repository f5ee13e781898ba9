//! The line of `check` on the bytes of each example.
ghost use Rattle.std.specs.Prelude.{Some, None, codes};
ghost use Rattle.check_lines.specs.Output.{no, yes};
ghost use Rattle.loaded_examples.specs.Certificates as certificates;
ghost use Rattle.loaded_examples.specs.Scripts as scripts;
ghost use Rattle.loaded_examples.specs.Told.{IsTheLine};

use mg_examples::runs::{
    a_begun_call_talks, digits_are_not_enough, each_obligation_is_needed, two_calls_talk_at_once,
};
use mg_safety::runs::every_run_is_good;
use scriptreader::laws::accepted_scripts;

/// Of `examples/talks` the line is `yes 3 7 12`: 3 states, 7 entries and 12 points, and no obligation is broken.
pub fn talks_are_told()
    ensures { IsTheLine scripts.calling certificates.reachable (yes 3 7 12) }
{
    accepted_scripts();
    every_run_is_good();
    two_calls_talk_at_once();
}

/// Of `examples/begun` the line is `yes 4 8 14`.
pub fn begun_talk_is_told()
    ensures { IsTheLine scripts.renewing certificates.renewing (yes 4 8 14) }
{
    accepted_scripts();
    every_run_is_good();
    a_begun_call_talks();
}

/// Of `needed_1.in` to `needed_7.in` of `tests/cases` the line names the obligation of that number, with the entry, the point and the step at which it is
/// broken first.
pub fn needed_are_told()
    ensures opening { IsTheLine scripts.unmarked certificates.after_a_restart (no 1 None None None) }
    ensures steps { IsTheLine scripts.unmarked certificates.in_idle (no 2 (Some 1) (Some 0) (Some (codes "a.of"))) }
    ensures marks { IsTheLine scripts.unmarked certificates.reachable (no 3 (Some 4) (Some 0) None) }
    ensures cleared { IsTheLine scripts.unarmed certificates.unarmed (no 4 (Some 1) (Some 1) None) }
    ensures unbound { IsTheLine scripts.created_twice certificates.created_twice (no 5 (Some 3) (Some 0) None) }
    ensures reset { IsTheLine scripts.recovering certificates.at_rest (no 6 None None None) }
    ensures live { IsTheLine scripts.name_kept certificates.name_kept (no 7 (Some 5) (Some 0) None) }
{
    each_obligation_is_needed();
}

/// Of `digits_alone.in` of `tests/cases` the line is `yes 3 6 11`: no obligation asks that a call can be led on.
pub fn digits_are_told()
    ensures { IsTheLine scripts.dials certificates.dials (yes 3 6 11) }
{
    accepted_scripts();
    every_run_is_good();
    digits_are_not_enough();
}
