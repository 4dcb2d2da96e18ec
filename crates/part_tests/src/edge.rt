//! What the clauses leave open: that calls succeed with ample memory, which calls fail, how many bytes
//! come at once, and the real file and stream.
ghost use Rattle.std.specs.Prelude.{IsTrue};

use io_edge::{
    CalmShelf, CalmSink, FileShelf, MemShelf, MemSink, ReadErr, StreamSink, read_whole, write_whole,
};
use std::alloc::{AllocError, Global};
use std::fs;
use std::test::Fail;

fn files(alloc: Global) -> Result<Vec<(String, Vec<u8>)>, AllocError> {
    let mut files = Vec::new(alloc);
    files.push((
        String::from_str(alloc, "a")?,
        vec![in alloc; 1, 2, 3, 4, 5]?,
    ))?;
    files.push((String::from_str(alloc, "b")?, Vec::new(alloc)))?;
    files.push((String::from_str(alloc, "a")?, vec![in alloc; 9]?))?;
    Ok(files)
}

#[test]
fn a_file_comes_whole_up_to_the_limit(rt: HostRuntime) -> Result<(), Fail> {
    for piece in 1..7 {
        for (name, limit, length) in [
            ("a", 5, Some(5)),
            ("a", 9, Some(5)),
            ("a", 4, None),
            ("b", 0, Some(0)),
        ] {
            let mut shelf = MemShelf::new(
                rt.alloc(),
                files(rt.alloc())?,
                piece,
                Vec::new(rt.alloc()),
            );
            let read = read_whole(rt.alloc(), &mut shelf, name, limit);
            match length {
                Some(5) => assert_eq!(rt;
                    read?.as_slice(),
                    [1, 2, 3, 4, 5].as_slice(),
                    "{name} {limit}"
                ),
                Some(_) => assert!(rt; read?.is_empty(), "{name} {limit}"),
                None => assert!(rt; matches!(read, Err(ReadErr::TooLarge)), "{name} {limit}"),
            }
            assert_eq!(rt; shelf.asked().len(), 1, "{name} {limit}");
        }
    }
    Ok(())
}

#[test]
fn each_call_on_a_shelf_fails_in_turn(rt: HostRuntime) -> Result<(), Fail> {
    for fails_at in 1..6 {
        let failing = vec![in rt.alloc(); fails_at]?;
        let mut shelf = MemShelf::new(rt.alloc(), files(rt.alloc())?, 2, failing);
        let read = read_whole(rt.alloc(), &mut shelf, "a", 5);
        // five bytes by two come in three calls, the end in a fourth, after that of open
        assert!(rt; matches!(read, Err(ReadErr::ReadFault)), "{fails_at}");
        assert!(rt;
            read_whole(rt.alloc(), &mut shelf, "a", 5).is_ok(),
            "{fails_at}"
        );
    }
    let mut shelf = MemShelf::new(rt.alloc(), files(rt.alloc())?, 2, Vec::new(rt.alloc()));
    assert!(rt;
        matches!(
            read_whole(rt.alloc(), &mut shelf, "c", 5),
            Err(ReadErr::ReadFault)
        )
    );
    assert!(rt; shelf.asked().len() == 1 && shelf.asked()[0].as_str() == "c");
    Ok(())
}

#[test]
fn each_call_on_a_sink_fails_in_turn(rt: HostRuntime) -> Result<(), Fail> {
    for (fails_at, taken) in [(1, 0), (2, 2), (3, 4), (4, 5)] {
        let mut sink = MemSink::new(rt.alloc(), 2, vec![in rt.alloc(); fails_at]?);
        let written = write_whole(&mut sink, &[1, 2, 3, 4, 5]);
        assert_eq!(rt; written.is_ok(), taken == 5, "{fails_at}");
        assert_eq!(rt; sink.taken().len(), taken, "{fails_at}");
    }
    Ok(())
}

/// Over a sink that never fails all bytes are written: the count never rises.
fn calm_takes(bytes: &[u8]) -> bool
    ensures { IsTrue result }
{
    write_whole(&mut CalmSink::new(), bytes).is_ok()
}

#[test]
fn a_calm_shelf_has_every_name(rt: HostRuntime) -> Result<(), Fail> {
    let mut shelf = CalmShelf::new(files(rt.alloc())?);
    assert_eq!(rt;
        read_whole(rt.alloc(), &mut shelf, "a", 5)?.as_slice(),
        [1, 2, 3, 4, 5].as_slice()
    );
    assert!(rt; read_whole(rt.alloc(), &mut shelf, "c", 5)?.is_empty());
    assert!(rt; calm_takes(&[1, 2, 3]));
    Ok(())
}

#[test]
fn a_real_file_goes_out_and_in(rt: HostRuntime) -> Result<(), Fail> {
    let mut sink = StreamSink::new(fs::create(&rt, "written")?);
    assert!(rt; write_whole(&mut sink, b"hello").is_ok());
    let alloc = rt.alloc();
    let mut shelf = FileShelf::new(rt);
    let missing = read_whole(alloc, &mut shelf, "missing", 9);
    let read = read_whole(alloc, &mut shelf, "written", 9)?;
    if !matches!(missing, Err(ReadErr::ReadFault)) || read.as_slice() != b"hello".as_slice() {
        return Err(Fail::new("another answer"));
    }
    Ok(())
}
