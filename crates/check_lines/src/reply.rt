//! The program's replies, as lines and as exit statuses.
ghost use Rattle.std.specs.Prelude.{◌≡◌, Some};
ghost use Rattle.check_lines.specs.Replies.{answer_line, broken_line, input_line, line_of};
ghost use Rattle.check_lines.specs.Output.{line_status, text_of};
ghost use Rattle.program_rim.specs.Statuses.{code_of};

use crate::answer::{Answer, Broken};
use program_rim::status::Status;
use std::fmt;

/// Why the input has no sections to read.
#[derive(Clone, Copy)]
pub enum InputFault {
    /// It has another number of sections.
    Sections,
    /// It goes past its limit.
    TooLong,
}

/// All that the program may say.
#[derive(Drop)]
pub enum Reply {
    /// How the program is called.
    Usage,
    /// The input has a fault.
    Input(InputFault),
    /// What checking came to, or running out of memory.
    Checked(Answer),
    /// The plan is not read, by the number and the name of its fault.
    PlanFault { number: u8, name: &'static str },
    /// The plan is not run, or its run is not told, by the number and the name of the fault.
    RunFault { number: u8, name: &'static str },
}

impl Reply {
    /// The status that goes with the reply.
    pub fn status(&self) -> Status
        ensures { code_of result ≡ line_status (line_of self.now) }
    {
        match self {
            Reply::Usage => Status::Usage,
            Reply::Input(_) => Status::Unreadable,
            Reply::Checked(answer) => match answer {
                Answer::Yes { .. } => Status::Yes,
                Answer::No(_) => Status::No,
                Answer::ScriptFault { .. } => Status::Unreadable,
                Answer::CertificateFault { .. } => Status::Unreadable,
                Answer::NoMemory => Status::NoMemory,
            },
            Reply::PlanFault { .. } => Status::Unreadable,
            Reply::RunFault { .. } => Status::RunFault,
        }
    }
}

/// A value, or a dash where there is none.
#[derive(Drop)]
struct OrDash<'a, T>(&'a Option<T>);

impl<T: fmt::Display> fmt::Display for OrDash<'_, T> {
    ghost use Rattle.std.specs.Prelude.{Some, codes};
    ghost use Rattle.std.specs.Option.{option_map_or};

    ghost output = { λ value. option_map_or T.output value.0.now (Some (codes "-")) };

    fn fmt<W: fmt::Write>(&self, f: &mut fmt::Formatter<W>) -> fmt::Result {
        match self.0 {
            Some(value) => write!(f, "{value}"),
            None => write!(f, "-"),
        }
    }
}

impl fmt::Display for Broken {
    ghost output = { λ broken. Some (text_of (broken_line broken)) };

    fn fmt<W: fmt::Write>(&self, f: &mut fmt::Formatter<W>) -> fmt::Result {
        let obligation = self.obligation;
        let entry = OrDash(&self.entry);
        let point = OrDash(&self.point);
        let step = OrDash(&self.step);
        write!(
            f,
            "no K{obligation} entry={entry} point={point} step={step}"
        )
    }
}

impl fmt::Display for InputFault {
    ghost output = { λ fault. Some (text_of (input_line fault)) };

    fn fmt<W: fmt::Write>(&self, f: &mut fmt::Formatter<W>) -> fmt::Result {
        match self {
            InputFault::Sections => write!(f, "input fault 1 Sections"),
            InputFault::TooLong => write!(f, "input fault 2 TooLong"),
        }
    }
}

impl fmt::Display for Answer {
    ghost output = { λ answer. Some (text_of (answer_line answer)) };

    fn fmt<W: fmt::Write>(&self, f: &mut fmt::Formatter<W>) -> fmt::Result {
        match self {
            Answer::Yes {
                states,
                entries,
                points,
            } => write!(f, "yes {states} {entries} {points}"),
            Answer::No(broken) => write!(f, "{broken}"),
            Answer::ScriptFault { number, name } => write!(f, "script fault {number} {name}"),
            Answer::CertificateFault { number, name } => {
                write!(f, "certificate fault {number} {name}")
            }
            Answer::NoMemory => write!(f, "no memory"),
        }
    }
}

impl fmt::Display for Reply {
    ghost output = { λ reply. Some (text_of (line_of reply)) };

    fn fmt<W: fmt::Write>(&self, f: &mut fmt::Formatter<W>) -> fmt::Result {
        match self {
            Reply::Usage => write!(f, "usage: mgcall check [--pieces N] | run [--workers N]"),
            Reply::Input(fault) => write!(f, "{fault}"),
            Reply::Checked(answer) => write!(f, "{answer}"),
            Reply::PlanFault { number, name } => write!(f, "plan fault {number} {name}"),
            Reply::RunFault { number, name } => write!(f, "run fault {number} {name}"),
        }
    }
}
