//! The line on the diagnosis sink.
ghost use Rattle.std.specs.Prelude.{◌≡◌, ◌≤◌, OnOk, map, string_bytes};
ghost use Rattle.std.specs.List.{concat};
ghost use Rattle.io_edge.specs.Causes.{HasCause};
ghost use Rattle.io_edge.specs.Sinks.{TakesOf, TakesPrefix};
ghost use Rattle.pathfinder_run.specs.Lines.{Said, line, coded, named, too_large, about, refused};
ghost use Rattle.pathfinder_run.specs.Words.{word_at as words_at};

use crate::status::{DocFault, Status};
use io_edge::{Failed, Sink, write_whole};
use itoa::Buffer;
use xq_base::Code;

const USAGE: &[u8] = b"usage: pathfinder run|check|plan|stats|shred|gen QUERY [DOC]...\n";

/// Writes some pieces, one after the other.
fn write_pieces<S: Sink>(sink: &mut S, pieces: &[&[u8]]) -> Result<(), Failed>
    ensures cause { HasCause (S.faults sink.old) (S.faults sink.new) result }
    ensures whole { OnOk result (TakesOf (S.taken sink.old) (S.taken sink.new) (concat (map (λ p. p.now) pieces.now))) }
    ensures part { TakesPrefix (S.taken sink.old) (S.taken sink.new) (concat (map (λ p. p.now) pieces.now)) }
{
    for piece in pieces {
        write_whole(sink, piece)?;
    }
    Ok(())
}

/// Whether a call on a sink failed makes no difference to how the program ends: what was taken is a
/// part of the line.
fn said<S: Sink>(sink: &mut S, pieces: &[&[u8]])
    ensures later { S.faults sink.old ≤ S.faults sink.new }
    ensures said { Said (S.faults sink.old) (S.faults sink.new) (S.taken sink.old) (S.taken sink.new) (concat (map (λ p. p.now) pieces.now)) }
{
    match write_pieces(sink, pieces) {
        Ok(()) => {}
        Err(_) => {}
    }
}

fn say_code<S: Sink>(sink: &mut S, code: Code, place: Option<u64>)
    ensures { Said (S.faults sink.old) (S.faults sink.new) (S.taken sink.old) (S.taken sink.new) (coded code place) }
{
    match place {
        None => said(sink, &[code.name().as_bytes(), b"\n"]),
        Some(place) => {
            let mut buffer = Buffer::new();
            let digits = buffer.format(place).as_bytes();
            said(sink, &[code.name().as_bytes(), b" at ", digits, b"\n"]);
        }
    }
}

fn word_at(words: &[String], place: usize) -> &str
    ensures { result.now ≡ words_at (map string_bytes words.now) place }
{
    match words.split_first() {
        None => "",
        Some((first, rest)) => {
            if place == 0 {
                first.as_str()
            } else {
                word_at(rest, place - 1)
            }
        }
    }
}

fn say_named<S: Sink>(sink: &mut S, text: &[u8], words: &[String], place: usize)
    ensures { Said (S.faults sink.old) (S.faults sink.new) (S.taken sink.old) (S.taken sink.new) (named text.now (words_at (map string_bytes words.now) place)) }
{
    said(sink, &[text, word_at(words, place).as_bytes(), b"\n"]);
}

fn say_too_large<S: Sink>(sink: &mut S, words: &[String], word: Option<usize>)
    ensures { Said (S.faults sink.old) (S.faults sink.new) (S.taken sink.old) (S.taken sink.new) (too_large (map string_bytes words.now) word) }
{
    match word {
        None => said(sink, &[b"too large: more than 16 documents\n"]),
        Some(word) => say_named(sink, b"too large: ", words, word),
    }
}

fn say_about<S: Sink>(sink: &mut S, words: &[String], place: usize, text: &[u8])
    ensures { Said (S.faults sink.old) (S.faults sink.new) (S.taken sink.old) (S.taken sink.new) (about (words_at (map string_bytes words.now) place) text.now) }
{
    said(
        sink,
        &[b"document ", word_at(words, place).as_bytes(), text],
    );
}

fn say_refused<S: Sink>(sink: &mut S, words: &[String], place: usize, kind: DocFault)
    ensures { Said (S.faults sink.old) (S.faults sink.new) (S.taken sink.old) (S.taken sink.new) (refused (words_at (map string_bytes words.now) place) kind) }
{
    match kind {
        DocFault::NotWellFormed => say_about(sink, words, place, b" is not well-formed\n"),
        DocFault::Unsupported => say_about(sink, words, place, b" is unsupported\n"),
        DocFault::TooDeep => say_about(sink, words, place, b" is too deep\n"),
    }
}

/// Writes the line for a status. Where the sink counts a fault it may take a prefix alone.
pub fn say<S: Sink>(sink: &mut S, words: &[String], status: Status)
    ensures { Said (S.faults sink.old) (S.faults sink.new) (S.taken sink.old) (S.taken sink.new) (line (map string_bytes words.now) status) }
{
    match status {
        Status::Done => said(sink, &[]),
        Status::Static { code, offset } => say_code(sink, code, offset),
        Status::Dynamic { code, offset } => say_code(sink, code, offset),
        Status::DocRefused { word, kind } => say_refused(sink, words, word, kind),
        Status::ReadFault { word } => say_named(sink, b"read fault: ", words, word),
        Status::WriteFault => said(sink, &[b"write fault\n"]),
        Status::Usage => said(sink, &[USAGE]),
        Status::NoMemory => said(sink, &[b"want of memory\n"]),
        Status::TooLarge { word } => say_too_large(sink, words, word),
    }
}
