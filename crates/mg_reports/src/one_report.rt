//! The laws of the one report of a plan, of what a call tells among others, and of what the log of a gateway tells of each call.
ghost use Rattle.mg_reports.specs.Among.{ReportsAmongOthers};
ghost use Rattle.mg_reports.specs.OneReport.{OneReport, OneReportAlone, PlansWithoutRestartSteps};
ghost use Rattle.mg_reports.specs.Logs.{LogsTellReports};

/// A call that is run alone, with all that begin on its lines, has one report where no restart of another call stands among its steps: whatever identifiers
/// its gateway gives, the lines are the same. Where no obligation is broken and no state has more than 16 commands.
pub fn one_report_alone()
    ensures { OneReportAlone }
{}

/// So a plan has one report where no call has restarts of other calls.
pub fn one_report()
    ensures { OneReport }
{}

/// Where no call of a plan has a `restart` step, no call has restarts of other calls.
pub fn plans_without_restart_steps()
    ensures { PlansWithoutRestartSteps }
{}

/// What a call tells among others, with all that begin within it, a run of it alone tells: by its own steps, with the restarts of the others where they stood. On
/// one gateway, with any other calls that do anything. Where no obligation is broken, no state has more than 16 commands and identifiers are left before each
/// of its steps. This profile's own.
pub fn reports_among_others()
    ensures { ReportsAmongOthers }
{}

/// From the log of a gateway's steps alone each call's report is counted: its own entries count its lines, and a run of it alone tells these, by its own steps, with
/// the restarts that other calls asked for. Of an opening of calls of a plan, where no obligation is broken, no state has more than 16 commands and identifiers
/// are left before each step. This profile's own.
pub fn logs_tell_reports()
    ensures { LogsTellReports }
{}
