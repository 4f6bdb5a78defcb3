//! Files.
ghost use Rattle.std.specs.Prelude.{◌≡◌, ◌≢◌, IfErr};
ghost use Rattle.command_line.specs.Faults.{IsFileFault};

use crate::fault::Fault;
use names::Refusal;
use names::limits::MAX_CONFIG_LEN;
use std::alloc::Global;
use std::io::{ErrorKind, Read};
use std::rt::Files;
use std::{fs, io};

/// The most bytes that are read of a file: one more than a configuration has.
const MOST: u64 = MAX_CONFIG_LEN as u64 + 1;

/// The first bytes of a file, one more than a configuration has, or all of it where it has fewer.
pub fn read_file<F: Files>(alloc: Global, files: &F, path: &str) -> Result<Vec<u8>, Fault>
    ensures line { IfErr result (λ fault. fault ≢ Fault.CommandLine) }
    ensures err { IfErr result IsFileFault }
{
    match read_first(alloc, files, path) {
        Ok(bytes) => Ok(bytes),
        Err(e) => Err(if e.kind() == ErrorKind::OutOfMemory {
            Fault::Refused(Refusal::Memory)
        } else {
            Fault::CannotRead
        }),
    }
}

fn read_first<F: Files>(alloc: Global, files: &F, path: &str) -> io::Result<Vec<u8>> {
    let file = fs::open(files, path)?;
    let mut bytes = Vec::new(alloc);
    file.take(MOST).read_to_end(&mut bytes)?;
    Ok(bytes)
}
