//! The bytes of the standard input.
ghost use Rattle.std.specs.Prelude.{◌≡◌, IfOk, IfErr};
ghost use Rattle.table_bench.specs.Fault.{IsLarge};
ghost use Rattle.table_bench.specs.Input.{IsWhole, IsLong};

use crate::fault::Fault;
use std::alloc::Global;
use std::io::{ErrorKind, Read};

/// The most rows of a table.
const ROW_LIMIT: usize = 16_777_216;

/// All bytes of a reader, within the limit. One byte more is asked for.
pub fn read_all<R: Read + Drop>(alloc: Global, reader: R) -> Result<Vec<u8>, Fault>
    ensures whole { IfOk result (λ bytes. IsWhole (R.remaining reader) bytes.items) }
    ensures large { IfErr result (λ fault. IsLarge fault → IsLong (R.remaining reader)) }
{
    let mut bytes = Vec::new(alloc);
    let mut limited = reader.take(ROW_LIMIT as u64 + 1);
    match limited.read_to_end(&mut bytes) {
        Ok(_) => {
            if bytes.len() > ROW_LIMIT {
                Err(Fault::TooLarge)
            } else {
                Ok(bytes)
            }
        }
        Err(e) if e.kind() == ErrorKind::OutOfMemory => Err(Fault::NoMemory),
        Err(_) => Err(Fault::Read),
    }
}
