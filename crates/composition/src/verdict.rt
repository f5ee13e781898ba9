//! The verdict on a script and a certificate. A `Yes` can be made in no other way than by `check` and `check_par`.
ghost use Rattle.std.specs.Prelude.{◌≡◌, length};
ghost use Rattle.mg_model.specs.Accepted.{HasFewCommands, IsScript};
ghost use Rattle.mg_model.specs.Obligations.{IsFirstFault};
ghost use Rattle.mg_safety.specs.Headline.{RunsAreGood};
ghost use Rattle.closure.specs.Answer.{IsFinding};
ghost use Rattle.composition.specs.Faults.{name_of, number_of};
ghost use Rattle.composition.specs.Verdict.{AreAccepted, IsChecked};
ghost use Rattle.composition.specs.Verdicts.{IsReading, IsVerdict, IsVerdictOn, YesIsSafe};

use certificate::laws::accepted_certificates;
use certificate::{CertFault, read_cert};
use closure::first_fault::Finding;
use entry_table::Cert;
use mg_model::faults::Fault;
use mg_safety::runs::every_run_is_good;
use script_table::Script;
use scriptreader::laws::accepted_scripts;
use scriptreader::{ScriptFault, read_script};
use std::alloc::{AllocError, Global};
use std::marker::Model;
use std::thread::Threads;
use thiserror::Error;
use typed_values::Unread;

/// A script as its reader accepts it, with a certificate that breaks no obligation: every run of any number of calls of the script, on lines distinct at each moment, is good.
#[derive(Drop)]
pub struct Checked {
    script: Script,
    cert: Cert,
    points: u128,
}

impl Model for Checked {
    ghost use Rattle.composition.specs.Verdict.{CheckedScript, IsChecked};

    ghost Value = { CheckedScript };

    ghost view = { λ c. record { table = c.script; entries = c.cert; points = c.points } };

    ghost invariant = { λ c. IsChecked c.script c.cert c.points };
}

impl Checked {
    /// The script: one that its reader accepts, with at most 16 commands in a state, and of which every run is good.
    pub fn script(&self) -> &Script
        ensures table { result.now ≡ self.now.table }
        ensures accepted { IsScript result.now }
        ensures few_commands { HasFewCommands result.now }
        ensures safe { RunsAreGood result.now }
    {
        &self.script
    }

    /// The certificate: its entries, of which no obligation is broken.
    pub fn cert(&self) -> &Cert
        ensures { result.now ≡ self.now.entries }
    {
        &self.cert
    }

    /// What was asked of both: they are as their readers accept them, and no obligation is broken.
    pub fn is_checked(&self)
        ensures { IsChecked self.now.table self.now.entries self.now.points }
    {
        let _ = &self.script;
    }

    /// How many states the script has.
    pub fn states(&self) -> usize
        ensures { result ≡ length self.now.table.states }
    {
        self.script().states()
    }

    /// How many entries the certificate has.
    pub fn entries(&self) -> usize
        ensures { result ≡ length self.now.entries }
    {
        self.cert.entries().len()
    }

    /// How many points the entries have together: those of their numbers whose configuration is well formed. A wide
    /// number, since no bound on the entries is assumed.
    pub fn points(&self) -> u128
        ensures { result ≡ self.now.points }
    {
        self.points
    }
}

/// A script as its reader accepts it, with a certificate that breaks an obligation: the documents of a No, and the first obligation that is broken.
#[derive(Drop)]
pub struct Refuted {
    script: Script,
    cert: Cert,
    fault: Fault,
}

impl Model for Refuted {
    ghost use Rattle.mg_model.specs.Obligations.{IsFirstFault};
    ghost use Rattle.composition.specs.Verdict.{RefutedScript};

    ghost Value = { RefutedScript };

    ghost view = { λ r. record { table = r.script; entries = r.cert; fault = r.fault } };

    ghost invariant = { λ r. IsFirstFault r.script r.cert r.fault };
}

impl Refuted {
    /// The script.
    pub fn script(&self) -> &Script
        ensures { result.now ≡ self.now.table }
    {
        &self.script
    }

    /// The certificate.
    pub fn cert(&self) -> &Cert
        ensures { result.now ≡ self.now.entries }
    {
        &self.cert
    }

    /// The first obligation that the certificate breaks, with its entry, its point and its step where it has them.
    pub fn fault(&self) -> &Fault
        ensures fault { result.now ≡ self.now.fault }
        ensures first { IsFirstFault self.now.table self.now.entries result.now }
    {
        &self.fault
    }
}

/// What the checker says of a script and a certificate that are read.
#[derive(Drop)]
pub enum Verdict {
    /// No obligation is broken.
    Yes(Checked),
    /// An obligation is broken.
    No(Refuted),
}

/// Why there is no verdict.
#[derive(Debug, Drop, Error)]
pub enum CheckFault {
    /// 1: the script is not read.
    #[error("no script: {0}")]
    Script(ScriptFault),
    /// 2: the certificate is not read.
    #[error("no certificate: {0}")]
    Cert(CertFault),
    /// 3: there was no memory to read or check them.
    #[error("out of memory")]
    NoMemory,
}

impl CheckFault {
    /// The fault's number, 1 to 3.
    pub fn number(&self) -> u8
        ensures { result ≡ number_of self.now }
    {
        match self {
            CheckFault::Script(_) => 1,
            CheckFault::Cert(_) => 2,
            CheckFault::NoMemory => 3,
        }
    }

    /// The variant's name.
    pub fn name(&self) -> &'static str
        ensures { result.now ≡ name_of self.now }
    {
        match self {
            CheckFault::Script(_) => "Script",
            CheckFault::Cert(_) => "Cert",
            CheckFault::NoMemory => "NoMemory",
        }
    }
}

impl From<Unread<ScriptFault>> for CheckFault {
    ghost use Rattle.std.specs.Prelude.{◌≡◌};
    ghost use Rattle.composition.specs.Verdicts.{of_script};

    ghost from_gives = { λ unread fault. fault ≡ of_script unread };

    fn from(unread: Unread<ScriptFault>) -> CheckFault {
        match unread {
            Unread::Fault(fault) => CheckFault::Script(fault),
            Unread::NoMemory => CheckFault::NoMemory,
        }
    }
}

impl From<Unread<CertFault>> for CheckFault {
    ghost use Rattle.std.specs.Prelude.{◌≡◌};
    ghost use Rattle.composition.specs.Verdicts.{of_certificate};

    ghost from_gives = { λ unread fault. fault ≡ of_certificate unread };

    fn from(unread: Unread<CertFault>) -> CheckFault {
        match unread {
            Unread::Fault(fault) => CheckFault::Cert(fault),
            Unread::NoMemory => CheckFault::NoMemory,
        }
    }
}

/// A script, and a certificate for it.
#[derive(Drop)]
struct Documents {
    script: Script,
    cert: Cert,
}

/// Reads both. Faults of the script go before those of the certificate; running out of memory may stand in place of any.
fn read_documents(alloc: Global, script: &[u8], certificate: &[u8]) -> Result<Documents, CheckFault>
    ensures { IsReading script.now certificate.now result }
{
    let script = read_script(alloc, script)?;
    let cert = read_cert(alloc, certificate, &script)?;
    accepted_scripts();
    accepted_certificates();
    Ok(Documents { script, cert })
}

/// The verdict on documents that were read, from what the walk over their points found.
fn verdict_of(documents: Documents, found: Finding) -> Verdict
    requires accepted { AreAccepted documents.script documents.cert }
    requires found { IsFinding documents.script documents.cert found }
    ensures { IsVerdictOn documents.script documents.cert result }
{
    match found {
        Finding::Kept(points) => {
            every_run_is_good();
            Verdict::Yes(Checked {
                script: documents.script,
                cert: documents.cert,
                points,
            })
        }
        Finding::Broken(fault) => Verdict::No(Refuted {
            script: documents.script,
            cert: documents.cert,
            fault,
        }),
    }
}

/// The verdict on a script and a certificate. Faults of the script go before those of the certificate; running out of memory
/// may stand in place of any.
///
/// Where it is a yes, then for any number of calls on lines distinct at each moment, in every interleaving of hook, digit, timer, delivery, begin
/// and restart events with any loss or repeat, an audio path joins two lines only inside one call whose current state marks that
/// pair as talking, and a call that has ended owns no ephemeral termination and has each line silent in the null context, armed for
/// off-hook.
pub fn check(alloc: Global, script: &[u8], certificate: &[u8]) -> Result<Verdict, CheckFault>
    ensures verdict { IsVerdict script.now certificate.now result }
    ensures safe { YesIsSafe result }
{
    let documents = read_documents(alloc, script, certificate)?;
    let found = closure::first_fault::check(&documents.script, &documents.cert);
    Ok(verdict_of(documents, found))
}

/// The same verdict, from so many pieces of the certificate, one job each; none count as one. Where no thread can be made, or fewer,
/// those that there are go on.
pub fn check_par(
    rt: &(impl Threads + Sync),
    alloc: Global,
    script: &[u8],
    certificate: &[u8],
    pieces: usize,
) -> Result<Verdict, CheckFault>
    ensures verdict { IsVerdict script.now certificate.now result }
    ensures safe { YesIsSafe result }
{
    let documents = read_documents(alloc, script, certificate)?;
    match parcheck::first_fault::check_par(rt, alloc, &documents.script, &documents.cert, pieces) {
        Ok(found) => Ok(verdict_of(documents, found)),
        Err(AllocError) => Err(CheckFault::NoMemory),
    }
}
