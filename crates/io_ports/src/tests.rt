// Calls that take memory, each once with memory to spare; devices that fail in mid-stream; the adapters over std.
ghost use Rattle.std.specs.Prelude.{◌≡◌, IfOk};

use crate::{
    Failed, Files, MemFiles, MemSink, MemSource, NamedFile, ReadErr, StdFiles, StdSink, StdSource,
    SureFiles, SureSink, SureSource, read_all, read_file, write_all,
};
use std::io::{ErrorKind, Read, Write};
use std::test::Fail;
use std::{fs, io};

// More than one piece, and less than two.
const LEN: usize = 5000;

#[test]
fn reads_a_source_to_its_end(rt: HostRuntime) -> Result<(), Fail> {
    let bytes = vec![in rt.alloc(); 7u8; LEN]?;
    let mut source = MemSource::new(bytes.clone()?, Vec::new(rt.alloc()));
    let read = read_all(rt.alloc(), &mut source, LEN)?;
    assert_eq!(rt; read, bytes);
    assert!(rt; source.left().is_empty());

    let mut source = SureSource::new(bytes);
    assert_eq!(rt;
        read_all(rt.alloc(), &mut source, LEN - 1),
        Err(ReadErr::TooLong)
    );
    Ok(())
}

#[test]
fn stops_where_a_source_fails(rt: HostRuntime) -> Result<(), Fail> {
    let bytes = vec![in rt.alloc(); 7u8; LEN]?;
    let mut source = MemSource::new(bytes, vec![in rt.alloc(); 2]?);
    assert_eq!(rt; read_all(rt.alloc(), &mut source, LEN), Err(ReadErr::Fault));
    assert_eq!(rt; source.calls(), 2);
    assert_eq!(rt; source.faults(), 1);
    assert_eq!(rt; source.left().len(), 904);
    Ok(())
}

#[test]
fn writes_in_pieces(rt: HostRuntime) -> Result<(), Fail> {
    let bytes = vec![in rt.alloc(); 7u8; LEN]?;
    let mut sink = MemSink::new(rt.alloc(), LEN, Vec::new(rt.alloc()))?;
    write_all(&mut sink, &bytes)?;
    assert_eq!(rt; sink.bytes(), bytes.as_slice());
    assert_eq!(rt; sink.calls(), 2);
    Ok(())
}

#[test]
fn stops_where_a_sink_fails(rt: HostRuntime) -> Result<(), Fail> {
    let bytes = vec![in rt.alloc(); 7u8; LEN]?;
    for (room, fails) in [(LEN, 2), (LEN - 1, 9)] {
        let mut sink = MemSink::new(rt.alloc(), room, vec![in rt.alloc(); fails]?)?;
        assert_eq!(rt; write_all(&mut sink, &bytes), Err(Failed));
        assert_eq!(rt; sink.faults(), 1);
        assert_eq!(rt; sink.bytes().len(), 4096);
    }
    Ok(())
}

#[test]
fn reads_files_by_name(rt: HostRuntime) -> Result<(), Fail> {
    let mut list = Vec::new(rt.alloc());
    list.push(NamedFile::new("a".to_string(rt.alloc())?, b"one".to_vec(rt.alloc())?))?;
    list.push(NamedFile::new("b".to_string(rt.alloc())?, b"two".to_vec(rt.alloc())?))?;
    let mut files = MemFiles::new(rt.alloc(), list, vec![in rt.alloc(); 3]?)?;
    let read = read_file(rt.alloc(), &mut files, "b", 3)?;
    assert_eq!(rt; read.as_slice(), b"two".as_slice());
    assert_eq!(rt;
        read_file(rt.alloc(), &mut files, "b", 3),
        Err(ReadErr::Fault)
    );
    assert_eq!(rt;
        read_file(rt.alloc(), &mut files, "c", 3),
        Err(ReadErr::Fault)
    );
    assert_eq!(rt; files.calls(), 4);
    assert_eq!(rt; files.faults_of("a"), 0);
    assert_eq!(rt; files.faults_of("b"), 1);
    assert_eq!(rt; files.faults_of("c"), 1);
    Ok(())
}

#[test]
fn sure_devices_never_fail(rt: HostRuntime) -> Result<(), Fail> {
    let mut sink = SureSink::new(rt.alloc(), 3)?;
    write_all(&mut sink, b"abc")?;
    assert_eq!(rt; sink.bytes(), Some(b"abc".as_slice()));
    write_all(&mut sink, b"d")?;
    assert_eq!(rt; sink.bytes(), None);

    let mut files = SureFiles::new(Vec::new(rt.alloc()));
    assert!(rt; read_file(rt.alloc(), &mut files, "a", 3)?.is_empty());
    Ok(())
}

#[test]
fn adapts_readers_and_writers(rt: HostRuntime) -> Result<(), Fail> {
    let mut source = StdSource::new(b"abc".as_slice());
    let read = read_all(rt.alloc(), &mut source, 3)?;
    assert_eq!(rt; read.as_slice(), b"abc".as_slice());
    assert_eq!(rt; source.faults(), 0);

    // A writer that is full takes nothing.
    let mut place = [0u8; 4];
    let mut sink = StdSink::new(place.as_mut_slice());
    assert_eq!(rt; write_all(&mut sink, b"abcdef"), Err(Failed));
    assert_eq!(rt; sink.faults(), 1);
    assert_eq!(rt; place.as_slice(), b"abcd".as_slice());
    Ok(())
}

// A reader and a writer without an end, whose second call fails.
#[derive(Drop)]
struct Breaking {
    calls: u64,
}

impl Breaking {
    fn call(&mut self, count: usize) -> io::Result<usize>
        ensures { IfOk result (λ n. n ≡ count) }
    {
        self.calls = self.calls.saturating_add(1);
        if self.calls == 2 {
            return Err(io::Error::from(ErrorKind::Other));
        }
        Ok(count)
    }
}

impl Read for Breaking {
    fn read(&mut self, into: &mut [u8]) -> io::Result<usize> {
        self.call(into.len())
    }
}

impl Write for Breaking {
    fn write(&mut self, piece: &[u8]) -> io::Result<usize> {
        self.call(piece.len())
    }

    fn flush(&mut self) -> io::Result<()> {
        Ok(())
    }
}

#[test]
fn adapters_count_what_fails_in_mid_stream(rt: HostRuntime) -> Result<(), Fail> {
    let mut source = StdSource::new(Breaking { calls: 0 });
    assert_eq!(rt; read_all(rt.alloc(), &mut source, LEN), Err(ReadErr::Fault));
    assert_eq!(rt; source.faults(), 1);

    let mut sink = StdSink::new(Breaking { calls: 0 });
    assert_eq!(rt; write_all(&mut sink, &[7u8; LEN]), Err(Failed));
    assert_eq!(rt; sink.faults(), 1);
    Ok(())
}

// A file that is gone at its second piece can't be opened; a folder is opened, and can't be read.
#[test]
fn the_systems_files_count_what_fails(rt: HostRuntime) -> Result<(), Fail> {
    fs::write(&rt, "io_ports_gone", b"abc".as_slice())?;
    let mut files = StdFiles::new(&rt, "io_ports_gone");
    let mut piece = [0u8; 3];
    assert_eq!(rt; files.read_at("io_ports_gone", 0, &mut piece), Ok(3));
    fs::remove_file(&rt, "io_ports_gone")?;
    assert_eq!(rt; files.read_at("io_ports_gone", 3, &mut piece), Err(Failed));
    assert_eq!(rt; files.faults_of("io_ports_gone"), 1);

    let mut files = StdFiles::new(&rt, ".");
    assert_eq!(rt;
        read_file(rt.alloc(), &mut files, ".", 3),
        Err(ReadErr::Fault)
    );
    assert_eq!(rt; files.faults_of("."), 1);
    Ok(())
}

#[test]
fn adapts_the_systems_files(rt: HostRuntime) -> Result<(), Fail> {
    fs::write(&rt, "io_ports_test", b"abc".as_slice())?;
    let mut files = StdFiles::new(&rt, "io_ports_test");
    let read = read_file(rt.alloc(), &mut files, "io_ports_test", 3)?;
    assert_eq!(rt; read.as_slice(), b"abc".as_slice());
    fs::remove_file(&rt, "io_ports_test")?;
    assert_eq!(rt;
        read_file(rt.alloc(), &mut files, "io_ports_test", 3),
        Err(ReadErr::Fault)
    );
    assert_eq!(rt;
        read_file(rt.alloc(), &mut files, "io_ports_other", 3),
        Err(ReadErr::Fault)
    );
    assert_eq!(rt; files.faults_of("io_ports_test"), 1);
    assert_eq!(rt; files.faults_of("io_ports_other"), 1);
    Ok(())
}
