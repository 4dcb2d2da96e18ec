//! The program: the words of the command line, the files that they name, the answer's bytes.
//! `pathfinder` does all of it over what it is handed; `main` hands it the real files and streams.
#![tactic(auto)]

mod diagnosis;
#[cfg(test)]
mod document_cases;
mod inputs;
#[cfg(test)]
mod production_cases;
#[cfg(test)]
mod query_cases;
#[cfg(test)]
mod scope_cases;
mod status;
mod top;
mod words;

use crate::diagnosis::say;
use crate::status::Status;
use crate::top::pathfinder;
use crate::words::all_but_first;
use io_edge::{FileShelf, StreamSink};
use std::env;
use std::io::ErrorKind;
use std::process::ExitCode;
use std::random::RandomSource;
use xq_base::{HashKeys, Want};

/// Keys that nobody who writes a document can know. Where the system has no random bytes they are fixed,
/// which costs time over documents made for it, and nothing else.
fn random_keys(rt: &HostRuntime) -> HashKeys {
    let mut bytes = [0; 16];
    if rt.fill_bytes(&mut bytes).is_err() {
        return HashKeys::new(0, 0);
    }
    let both = u128::from_le_bytes(bytes);
    HashKeys::new((both & 0xFFFF_FFFF_FFFF_FFFF) as u64, (both >> 64) as u64)
}

fn main(rt: HostRuntime) -> ExitCode {
    let alloc = rt.alloc();
    let keys = random_keys(&rt);
    // words of which one is no text are like words that aren't in form
    let given = match env::args(&rt) {
        Ok(all) => all_but_first(alloc, all),
        Err(e) if e.kind() == ErrorKind::OutOfMemory => Err(Want),
        Err(_) => Ok(Vec::new(alloc)),
    };
    let mut out = StreamSink::new(rt.stdout());
    let mut diag = StreamSink::new(rt.stderr());
    let status = match given {
        Ok(words) => {
            let mut shelf = FileShelf::new(rt);
            pathfinder(
                alloc,
                keys,
                words.as_slice(),
                &mut shelf,
                &mut out,
                &mut diag,
            )
        }
        Err(_) => {
            say(&mut diag, &[], Status::NoMemory);
            Status::NoMemory
        }
    };
    ExitCode::from(status.code())
}
