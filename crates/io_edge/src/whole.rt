//! A file read whole, and bytes written whole.
ghost use Rattle.std.specs.Prelude.{◌≡◌, ◌≤◌, ◌<◌, ◌+◌, ◌^◌, OnOk, IfOk, length, vec_len};
ghost use Rattle.io_edge.specs.Causes.{HasCause, Rose};
ghost use Rattle.io_edge.specs.Sinks.{TakesPrefix, TakesOf};
ghost use Rattle.io_edge.specs.Wholes.{ReadsWhole, ReadsOn, AsksWhole};

use crate::edge::{Failed, Shelf, Sink};
use std::alloc::Global;
use thiserror::Error;

/// Why a file wasn't read.
#[derive(Debug, Drop, Error)]
pub enum ReadErr {
    /// The shelf counted a fault.
    #[error("read fault")]
    ReadFault,
    /// More bytes came than the limit allows.
    #[error("too large")]
    TooLarge,
    /// Want of memory.
    #[error("want of memory")]
    NoMemory,
}

/// Writes all bytes, in their order. `Failed` only where the sink counted a fault in this call; it has
/// then taken a prefix of the bytes. It takes no memory.
pub fn write_whole<S: Sink>(sink: &mut S, bytes: &[u8]) -> Result<(), Failed>
    ensures cause { HasCause (S.faults sink.old) (S.faults sink.new) result }
    ensures whole { OnOk result (TakesOf (S.taken sink.old) (S.taken sink.new) bytes.now) }
    ensures part { TakesPrefix (S.taken sink.old) (S.taken sink.new) bytes.now }
{
    let mut at = 0;
    while at < bytes.len() {
        at += sink.write(&bytes[at..])?;
    }
    Ok(())
}

/// The bytes that are asked for at once: sixteen pages of memory.
const CHUNK: usize = 65_536;

/// Reads the next bytes of the open file behind those that came before and answers their number, 0 at
/// the end of the file. `ReadFault` only where the shelf counted a fault, `TooLarge` exactly where all
/// bytes that came are more than `limit`, `NoMemory` for want of memory.
fn read_on<F: Shelf>(
    shelf: &mut F,
    buf: &mut [u8],
    bytes: &mut Vec<u8>,
    limit: usize,
) -> Result<usize, ReadErr>
    requires room { 0 < length buf.old }
    requires within { vec_len bytes.old ≤ limit }
    ensures later { F.faults shelf.old ≤ F.faults shelf.new }
    ensures cause { result ≡ Err ReadErr.ReadFault → Rose (F.faults shelf.old) (F.faults shelf.new) }
    ensures files { F.files shelf.new ≡ F.files shelf.old }
    ensures asked { F.asked shelf.new ≡ F.asked shelf.old }
    ensures grown { IfOk result (λ count. vec_len bytes.new ≡ vec_len bytes.old + count) }
    ensures within { OnOk result (vec_len bytes.new ≤ limit) }
    ensures bytes { ReadsOn (F.left shelf.old) (F.left shelf.new) bytes.old.items bytes.new.items limit result }
{
    let count = match shelf.read(buf) {
        Ok(count) => count,
        Err(_) => return Err(ReadErr::ReadFault),
    };
    if count > limit - bytes.len() {
        return Err(ReadErr::TooLarge);
    }
    if bytes.extend_from_slice(&buf[..count]).is_err() {
        return Err(ReadErr::NoMemory);
    }
    Ok(count)
}

/// Reads the whole file of a name, which is opened once. `ReadFault` only where the shelf counted a
/// fault in this call, `TooLarge` exactly where more than `limit` bytes came, `NoMemory` for want of
/// memory.
pub fn read_whole<F: Shelf>(
    alloc: Global,
    shelf: &mut F,
    name: &str,
    limit: usize,
) -> Result<Vec<u8>, ReadErr>
    ensures later { F.faults shelf.old ≤ F.faults shelf.new }
    ensures cause { result ≡ Err ReadErr.ReadFault → Rose (F.faults shelf.old) (F.faults shelf.new) }
    ensures files { F.files shelf.new ≡ F.files shelf.old }
    ensures within { IfOk result (λ bytes. length bytes.items ≤ limit) }
    ensures whole { ReadsWhole (F.files shelf.old) name.now limit result }
    ensures asked { AsksWhole (F.asked shelf.old) (F.asked shelf.new) name.now result }
{
    let mut bytes = Vec::new(alloc);
    let mut buf = [0u8; CHUNK];
    if shelf.open(name).is_err() {
        return Err(ReadErr::ReadFault);
    }
    loop {
        match read_on(shelf, &mut buf, &mut bytes, limit) {
            Ok(0) => return Ok(bytes),
            Ok(_) => {}
            Err(e) => return Err(e),
        }
    }
}
