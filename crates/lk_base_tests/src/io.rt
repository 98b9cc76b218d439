use lk_base::NoMemory;
use lk_io::{
    Failed, FileShelf, MemShelf, MemSink, NeverFails, ReadFault, Shelf, ShelfFault, Sink, StdSink,
    read_whole, write_whole,
};
use std::alloc::Global;
use std::fs;
use std::io::BufWriter;
use std::process::Abort;
use std::test::Fail;

/// A whole file of a shelf has these bytes.
fn check_whole<F: Shelf>(
    rt: &impl Abort,
    alloc: Global,
    shelf: &mut F,
    name: &str,
    bytes: &[u8],
) -> Result<(), Fail> {
    let limit = bytes.len() as u64;
    assert!(rt; name.len() > 0 && name.len() < 20);
    let read = read_whole(alloc, shelf, name, limit)?;
    assert!(rt; read.as_slice() == bytes);
    Ok(())
}

/// A file of a shelf isn't read whole, where it may have so many bytes.
fn check_fault<F: Shelf>(
    rt: &impl Abort,
    alloc: Global,
    shelf: &mut F,
    name: &str,
    limit: u64,
    want: ReadFault,
) {
    assert!(rt; name.len() > 0 && name.len() < 20);
    let fault = read_whole(alloc, shelf, name, limit).err();
    assert!(rt; fault == Some(want));
}

/// A read of 4 bytes from a place on gives these bytes, or fails.
fn check_piece<F: Shelf>(
    rt: &impl Abort,
    shelf: &mut F,
    name: &str,
    from: u64,
    want: Option<&[u8]>,
) {
    let mut piece = [0; 4];
    assert!(rt; name.len() > 0 && name.len() < 20);
    match shelf.read(name, from, &mut piece) {
        Ok(count) => assert!(rt; piece.get(..count) == want),
        Err(fault) => assert!(rt; fault == ShelfFault::Failed && want.is_none()),
    }
}

/// A file of more than one piece.
fn long(alloc: Global) -> Result<Vec<u8>, NoMemory> {
    let bytes = vec![in alloc; b'x'; 9000]?;
    Ok(bytes)
}

/// A shelf in memory with two files, of which one is long.
fn two_files(alloc: Global, long: &[u8]) -> Result<MemShelf, NoMemory> {
    let mut shelf = MemShelf::new(alloc);
    shelf.put("a.c", b"int n;")?;
    shelf.put("b.c", long)?;
    Ok(shelf)
}

#[test]
fn a_shelf_in_memory_is_read(rt: HostRuntime) -> Result<(), Fail> {
    let long = long(rt.alloc())?;
    let mut shelf = two_files(rt.alloc(), &long)?;
    check_whole(&rt, rt.alloc(), &mut shelf, "b.c", &long)
}

/// Puts a file on a shelf, of which the read with this number fails.
fn put_failing(shelf: &mut MemShelf, call: u64) -> Result<(), Fail> {
    shelf.put("a.c", b"int n;")?;
    shelf.fail_at(call)?;
    Ok(())
}

#[test]
fn a_listed_read_of_a_shelf_in_memory_fails(rt: HostRuntime) -> Result<(), Fail> {
    let mut shelf = MemShelf::new(rt.alloc());
    let put = put_failing(&mut shelf, 2);
    check_piece(&rt, &mut shelf, "a.c", 0, Some(b"int "));
    check_piece(&rt, &mut shelf, "a.c", 4, None);
    check_piece(&rt, &mut shelf, "a.c", 4, Some(b"n;"));
    put
}

/// Writes a text of 10 bytes to a sink, which takes it whole or a front of it.
fn check_sink(rt: &impl Abort, sink: &mut MemSink, is_whole: bool, want: &[u8]) {
    let written = write_whole(sink, b"n unshared").is_ok();
    assert!(rt; written == is_whole && sink.bytes() == want);
}

#[test]
fn a_sink_in_memory_is_written(rt: HostRuntime) -> Result<(), Fail> {
    let mut sink = MemSink::with_room(rt.alloc(), 10, 4)?;
    check_sink(&rt, &mut sink, true, b"n unshared");
    Ok(())
}

#[test]
fn a_listed_write_of_a_sink_in_memory_fails(rt: HostRuntime) -> Result<(), Fail> {
    let mut sink = MemSink::with_room(rt.alloc(), 10, 4)?;
    let listed = sink.fail_at(2);
    check_sink(&rt, &mut sink, false, b"n un");
    Ok(listed?)
}

/// A sink on which no write fails takes a line whole, and keeps these bytes of it.
fn check_keeper(rt: &impl Abort, sink: &mut NeverFails, want: &[u8]) {
    let written = write_whole(sink, b"n unshared").is_ok();
    assert!(rt; written && sink.bytes() == want);
}

#[test]
fn a_sink_that_never_fails_keeps_what_it_has_room_for(rt: HostRuntime) -> Result<(), Fail> {
    let mut sink = NeverFails::with_room(rt.alloc(), 4)?;
    check_keeper(&rt, &mut sink, b"n un");
    Ok(())
}

/// Reads two files of the system whole, and others that can't be.
fn check_files<F: Shelf>(
    rt: &impl Abort,
    alloc: Global,
    shelf: &mut F,
    long: &[u8],
) -> Result<(), Fail> {
    check_whole(rt, alloc, shelf, "first.c", b"int n;\n")?;
    check_whole(rt, alloc, shelf, "second.c", long)?;
    check_fault(rt, alloc, shelf, "second.c", 8999, ReadFault::TooLong);
    check_fault(rt, alloc, shelf, "third.c", 8999, ReadFault::Failed);
    Ok(())
}

#[test]
fn whole_files_of_the_system_are_read(rt: HostRuntime) -> Result<(), Fail> {
    fs::write(&rt, "first.c", "int n;\n")?;
    let long = long(rt.alloc())?;
    fs::write(&rt, "second.c", &long)?;
    let mut shelf = FileShelf::new(&rt);
    check_files(&rt, rt.alloc(), &mut shelf, &long)
}

#[test]
fn a_file_that_is_open_is_read_on_without_its_name(rt: HostRuntime) -> Result<(), Fail> {
    fs::write(&rt, "first.c", "int n;\n")?;
    fs::write(&rt, "second.c", "int k;\n")?;
    let mut shelf = FileShelf::new(&rt);
    check_piece(&rt, &mut shelf, "first.c", 2, Some(b"t n;"));
    let removed = fs::remove_file(&rt, "first.c");
    check_piece(&rt, &mut shelf, "first.c", 6, Some(b"\n"));
    check_piece(&rt, &mut shelf, "first.c", 100, Some(b""));
    check_piece(&rt, &mut shelf, "second.c", 0, Some(b"int "));
    check_piece(&rt, &mut shelf, "first.c", 0, None);
    Ok(removed?)
}

#[test]
fn the_streams_of_the_system_are_written(rt: HostRuntime) -> Result<(), Fail> {
    let out = write_whole(&mut StdSink::new(rt.stdout()), b"to standard output\n");
    let err = write_whole(&mut StdSink::new(rt.stderr()), b"to standard error\n");
    assert!(&rt; out == Ok(()) && err == Ok(()));
    Ok(())
}

#[test]
fn what_went_is_in_the_file_while_the_sink_is_there(rt: HostRuntime) -> Result<(), Fail> {
    let alloc = rt.alloc();
    let mut sink = StdSink::new(BufWriter::new(alloc, fs::create(&rt, "report")?)?);
    assert!(&rt; write_whole(&mut sink, b"n unshared\n") == Ok(()));
    let written = fs::read(&rt, "report")?;
    assert!(&rt; written.as_slice() == b"n unshared\n".as_slice());
    Ok(())
}

#[test]
fn a_file_for_reading_takes_nothing(rt: HostRuntime) -> Result<(), Fail> {
    fs::write(&rt, "report", "n unshared\n")?;
    let mut closed = StdSink::new(fs::open(&rt, "report")?);
    assert!(&rt; closed.write(b"more") == Err(Failed));
    Ok(())
}

#[test]
fn a_full_buffer_takes_nothing(rt: HostRuntime) -> Result<(), Fail> {
    let mut room = [0; 2];
    let mut full = StdSink::new(room.as_mut_slice());
    assert!(&rt; full.write(b"") == Ok(0));
    assert!(&rt; write_whole(&mut full, b"more") == Err(Failed));
    Ok(())
}
