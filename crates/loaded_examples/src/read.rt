//! The bytes of each example, and what the readers make of them.
ghost use Rattle.std.specs.Prelude.{[], Ok};
ghost use Rattle.composition.specs.Verdict.{AreRead};
ghost use Rattle.loaded_examples.specs.Certificates as certificates;
ghost use Rattle.loaded_examples.specs.Scripts as scripts;
ghost use Rattle.mg_examples.specs.Basic.{basic};
ghost use Rattle.mg_examples.specs.BegunTalk.{renewing, renewing_entries};
ghost use Rattle.mg_examples.specs.CreatedTwice.{created_twice, created_twice_entries};
ghost use Rattle.mg_examples.specs.Dials.{dial_entries, dials};
ghost use Rattle.mg_examples.specs.NameStays.{name_stays};
ghost use Rattle.mg_examples.specs.NamesKept.{name_kept, name_kept_entries};
ghost use Rattle.mg_examples.specs.TalkEntries.{after_a_restart, at_rest, in_idle, reachable};
ghost use Rattle.mg_examples.specs.TwoLines.{calling, recovering};
ghost use Rattle.mg_examples.specs.TwoTalks.{both_lines};
ghost use Rattle.mg_examples.specs.Unarmed.{unarmed, unarmed_entries};
ghost use Rattle.scriptreader.specs.Reading.{ReadsScript};

/// Of the script whose run joins two lines, whatever pairs its state marks (`mg_examples::runs::a_run_joins_two_lines`): the bytes of
/// `examples/basic/script.toml` are read as it, with its two lines marked.
pub fn basic_is_read()
    ensures { ReadsScript scripts.basic (Ok (basic both_lines)) }
{}

/// Of the script of which a call can have two reports (`mg_examples::runs::reports_can_differ`): the bytes of the script in `name_stays.in` of `tests/cases` are
/// read as it.
pub fn name_stays_is_read()
    ensures { ReadsScript scripts.name_stays (Ok name_stays) }
{}

/// Of the script and the entries under which two calls talk at once (`mg_examples::runs::two_calls_talk_at_once`): the bytes of
/// `examples/talks` are read as these.
pub fn talks_are_read()
    ensures { AreRead scripts.calling certificates.reachable (calling both_lines) reachable }
{}

/// Of the script and the entries under which a call that begins on the lines of an ended one talks (`mg_examples::runs::a_begun_call_talks`): the
/// bytes of `examples/begun` are read as these.
pub fn begun_talk_is_read()
    ensures { AreRead scripts.renewing certificates.renewing renewing renewing_entries }
{}

/// Of the scripts and the entries that show that each obligation is needed (`mg_examples::runs::each_obligation_is_needed`): the bytes of the cases
/// `needed_1.in` to `needed_7.in` of `tests/cases` are read as these.
pub fn needed_are_read()
    ensures opening { AreRead scripts.unmarked certificates.after_a_restart (calling []) after_a_restart }
    ensures steps { AreRead scripts.unmarked certificates.in_idle (calling []) in_idle }
    ensures marks { AreRead scripts.unmarked certificates.reachable (calling []) reachable }
    ensures cleared { AreRead scripts.unarmed certificates.unarmed unarmed unarmed_entries }
    ensures unbound { AreRead scripts.created_twice certificates.created_twice created_twice created_twice_entries }
    ensures reset { AreRead scripts.recovering certificates.at_rest recovering at_rest }
    ensures live { AreRead scripts.name_kept certificates.name_kept name_kept name_kept_entries }
{}

/// Of the script and the entries under which a call whose user dialled too little stays where it is (`mg_examples::runs::digits_are_not_enough`): the bytes
/// of the case `digits_alone.in` of `tests/cases` are read as these, its map and its events list among them.
pub fn digits_are_read()
    ensures { AreRead scripts.dials certificates.dials dials dial_entries }
{}
