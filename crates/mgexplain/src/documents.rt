//! The documents that words name, as one input: each file is read to its end, and a line `%%` stands between two.
ghost use Rattle.std.specs.Prelude.{◌≡◌, IfOk, map};
ghost use Rattle.mgexplain.specs.Files.{joined};

use program_rim::host::Host;
use program_rim::input::{INPUT_LIMIT, Input, read_all};
use std::alloc::{AllocError, Global};
use std::fs;

/// What stands between two documents: the end of a line that may lack it, and a divider.
const DIVIDER: &[u8] = b"\n%%\n";

/// The documents of an input, one after the other, each behind a divider but for the first.
fn joined(alloc: Global, documents: &[Vec<u8>]) -> Result<Vec<u8>, AllocError>
    ensures { IfOk result (λ v. v.items ≡ joined (map (λ d. d.items) documents.now)) }
{
    let mut bytes = Vec::new(alloc);
    let Some((first, others)) = documents.split_first() else {
        return Ok(bytes);
    };
    bytes.extend_from_slice(first.as_slice())?;
    for document in others {
        bytes.extend_from_slice(DIVIDER)?;
        bytes.extend_from_slice(document.as_slice())?;
    }
    Ok(bytes)
}

/// How the reading of a file ended; one that can't be opened has failed.
fn read_file(rt: &HostRuntime, path: &str) -> Input {
    let Ok(file) = fs::open(rt, path) else {
        return Input::Failed;
    };
    let mut source = Host::new(file);
    read_all(rt.alloc(), &mut source)
}

/// The files, each with its bytes; the first that isn't read to its end ends it, with what it came to.
fn read_files<'p>(rt: &HostRuntime, paths: &'p [String]) -> Result<Vec<Vec<u8>>, (Input, &'p str)> {
    let mut documents = Vec::new(rt.alloc());
    for path in paths {
        match read_file(rt, path.as_str()) {
            Input::Whole(bytes) => {
                if documents.push(bytes).is_err() {
                    return Err((Input::NoMemory, path.as_str()));
                }
            }
            ended => return Err((ended, path.as_str())),
        }
    }
    Ok(documents)
}

/// The files as one input. Where one can't be read that has failed, and a line on standard error names it; an input past the limit is too long.
pub(crate) fn read_documents(rt: &HostRuntime, paths: &[String]) -> Input {
    let documents = match read_files(rt, paths) {
        Ok(documents) => documents,
        Err((ended, path)) => {
            if let Input::Failed = ended {
                let _told = eprintln!(rt; "mgexplain: {path} can't be read");
            }
            return ended;
        }
    };
    match joined(rt.alloc(), documents.as_slice()) {
        Ok(bytes) if bytes.len() > INPUT_LIMIT => Input::TooLong,
        Ok(bytes) => Input::Whole(bytes),
        Err(AllocError) => Input::NoMemory,
    }
}
