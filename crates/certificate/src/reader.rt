//! The whole reading of a certificate: bytes, document, entries.
ghost use Rattle.std.specs.Prelude.{◌≡◌, Some};
ghost use Rattle.serde_json.specs.View.{view};
ghost use Rattle.typed_values.specs.Shape.{each};
ghost use Rattle.typed_values.specs.Unread.{OrNoMemory};
ghost use Rattle.certificate.specs.Certificate.{Answers, Parses, ReadsCertificate, checked_or, document_read, listed_meant, resolved_or, unread_by};

use crate::document::read_document;
use crate::draft::{drafts, entries};
use crate::fault::CertFault;
use crate::key::keys;
use crate::outline::{limit_passed, outlines};
use crate::written::{WrittenDocument, WrittenEntry};
use entry_table::{Cert, Entry};
use script_table::Script;
use serde_json::Value;
use std::alloc::Global;
use typed_values::{Missing, Unread};

/// Why a document is not read where a name or a word of it is looked up and stands for nothing.
fn unread_by(missing: Missing) -> Unread<CertFault>
    ensures { result ≡ unread_by missing }
{
    match missing {
        Missing::Nothing => Unread::Fault(CertFault::Unknown),
        Missing::Memory => Unread::NoMemory,
    }
}

/// Looks up the names of written entries. The limits are looked at before any entry is kept.
fn resolve(
    alloc: Global,
    script: &Script,
    written: &[WrittenEntry],
) -> Result<Vec<Entry>, Unread<CertFault>>
    ensures { Answers (λ v. v.items) result (checked_or script.now (each (listed_meant script.now) written.now)) }
{
    let keys = keys(alloc, script)?;
    let outlines = match outlines(alloc, script, keys.as_slice(), written) {
        Ok(outlines) => outlines,
        Err(missing) => return Err(unread_by(missing)),
    };
    if let Some(fault) = limit_passed(script, outlines.as_slice()) {
        return Err(Unread::Fault(fault));
    }
    match drafts(alloc, script, keys.as_slice(), written) {
        Ok(drafts) => Ok(entries(alloc, drafts)?),
        Err(missing) => Err(unread_by(missing)),
    }
}

/// The entries of what is written, which has to be of the version of today.
fn read_written(
    alloc: Global,
    script: &Script,
    written: &WrittenDocument,
) -> Result<Vec<Entry>, Unread<CertFault>>
    ensures { Answers (λ v. v.items) result (resolved_or script.now (Some written.now)) }
{
    let entries = resolve(alloc, script, written.entries.as_slice())?;
    if written.is_old {
        return Err(Unread::Fault(CertFault::OldVersion));
    }
    Ok(entries)
}

/// The entries of a document. Its tree, which takes several times the memory of what is written in it, is let go once that is read.
fn read_value(alloc: Global, script: &Script, value: Value) -> Result<Vec<Entry>, Unread<CertFault>>
    ensures { Answers (λ v. v.items) result (document_read script.now (view value)) }
{
    let read = read_document(alloc, &value);
    drop(value);
    match read {
        Ok(written) => read_written(alloc, script, &written),
        Err(Missing::Nothing) => Err(Unread::Fault(CertFault::BadKey)),
        Err(Missing::Memory) => Err(Unread::NoMemory),
    }
}

/// The document of a text.
fn parse(alloc: Global, bytes: &[u8]) -> Result<Value, Unread<CertFault>>
    ensures { Parses view result bytes.now }
{
    match Value::from_slice(alloc, bytes) {
        Ok(value) => Ok(value),
        Err(error) => {
            if error.is_memory() {
                return Err(Unread::NoMemory);
            }
            Err(Unread::Fault(CertFault::NotJson))
        }
    }
}

/// Reads a certificate for a script. The fault is the lowest that applies anywhere in the document; running out of memory may
/// stand in place of any answer.
pub fn read_cert(alloc: Global, bytes: &[u8], script: &Script) -> Result<Cert, Unread<CertFault>>
    ensures { OrNoMemory (ReadsCertificate script.now bytes.now) result }
{
    let value = parse(alloc, bytes)?;
    let entries = read_value(alloc, script, value)?;
    Ok(Cert::new(alloc, entries)?)
}
