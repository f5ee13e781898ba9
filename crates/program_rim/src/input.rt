//! Reading the whole input.
ghost use Rattle.std.specs.Prelude.{◌≡◌, ◌+◌, ◌-◌, ◌^◌, ◌<◌, ◌≤◌};
ghost use Rattle.program_rim.specs.Input.{ReadsAll, faults_of};

use crate::source::Source;
use std::alloc::Global;

/// How many bytes the input may have.
pub const INPUT_LIMIT: usize = 16_777_216;

/// How many bytes one read asks for at most.
const CHUNK: usize = 8192;

/// How the reading of an input ended.
#[derive(Drop)]
pub enum Input {
    /// The source came to its end, with these bytes.
    Whole(Vec<u8>),
    /// The byte past the limit was read.
    TooLong,
    /// A read failed.
    Failed,
    /// There was no memory to keep what was read.
    NoMemory,
}

/// Reads a source to its end, or to the byte past the limit. No read is tried again.
pub fn read_all<S: Source>(alloc: Global, source: &mut S) -> Input
    requires { S.faults source.old < 2 ^ 64 - 1 }
    ensures bytes { ReadsAll (S.remaining source.old) (S.remaining source.new) result }
    ensures counted { S.faults source.new ≡ S.faults source.old + faults_of result }
{
    let mut bytes = Vec::new(alloc);
    let mut chunk = [0; CHUNK];
    while bytes.len() <= INPUT_LIMIT {
        let room = (INPUT_LIMIT + 1 - bytes.len()).min(CHUNK);
        let Ok(count) = source.read(&mut chunk[..room]) else {
            return Input::Failed;
        };
        if count == 0 {
            return Input::Whole(bytes);
        }
        if bytes.extend_from_slice(&chunk[..count]).is_err() {
            return Input::NoMemory;
        }
    }
    Input::TooLong
}
