use crate::{
    DiskFiles, Failure, Files, MemFiles, MemSink, ReadFault, Sink, StdSink, read_all, write_all,
};
use std::alloc::{AllocError, Global};
use std::cell::Cell;
use std::test::Fail;
use std::{fs, io};

// Two files, of which the first is given twice.
fn sample(alloc: Global, failing: &[u64]) -> Result<MemFiles, AllocError> {
    let mut files = Vec::new(alloc);
    for (name, bytes) in [("a", b"old"), ("b", b"two"), ("a", b"new")] {
        let entry = (String::from_str(alloc, name)?, bytes.to_vec(alloc)?);
        files.push(entry)?;
    }
    Ok(MemFiles::new(alloc, files, failing.to_vec(alloc)?))
}

#[test]
fn files_in_memory(rt: HostRuntime) -> Result<(), Fail> {
    let mut files = sample(rt.alloc(), &[5])?;
    let reads = [
        ("a", 0, Ok(b"ne".as_slice())),
        ("b", 1, Ok(b"wo".as_slice())),
        ("b", 2, Ok(b"o".as_slice())),
        ("b", 3, Ok(b"".as_slice())),
        ("a", 0, Err(Failure::Fault)),
        ("c", 0, Err(Failure::Fault)),
        ("b", u64::MAX, Ok(b"".as_slice())),
    ];
    for (name, at, want) in reads {
        let mut into = [0u8; 2];
        match (files.read_at(name, at, &mut into), want) {
            (Ok(count), Ok(bytes)) => {
                assert!(rt; count <= 2);
                assert_eq!(rt; &into[..count], bytes, "at {at}");
            }
            (Err(failure), Err(wanted)) => assert_eq!(rt; failure, wanted),
            _ => assert!(rt; false, "{name} at {at}"),
        }
    }
    assert_eq!(rt; files.get("a").unwrap_or(b"none"), b"new".as_slice());
    assert!(rt; files.get("c").is_none());

    let mut files = sample(rt.alloc(), &[2])?;
    assert_eq!(rt; files.put("c", b"three"), Ok(()));
    assert_eq!(rt; files.put("a", b"four"), Err(Failure::Fault));
    assert_eq!(rt; files.put("b", b""), Ok(()));
    assert_eq!(rt; files.get("a").unwrap_or(b"none"), b"new".as_slice());
    assert_eq!(rt; files.get("b").unwrap_or(b"none"), b"".as_slice());
    assert_eq!(rt; files.get("c").unwrap_or(b"none"), b"three".as_slice());
    Ok(())
}

#[test]
fn whole_files(rt: HostRuntime) -> Result<(), Fail> {
    let rows = [
        ("a", 2, 0, Err(ReadFault::TooLong)),
        ("a", 3, 0, Ok(b"new".as_slice())),
        ("a", 4, 0, Ok(b"new".as_slice())),
        ("a", u64::MAX, 3, Ok(b"new".as_slice())),
        ("a", 0, 0, Err(ReadFault::TooLong)),
        ("a", 3, 1, Err(ReadFault::Fault)),
        ("a", 3, 2, Err(ReadFault::Fault)),
        ("c", 3, 0, Err(ReadFault::Fault)),
    ];
    for (name, limit, failing, want) in rows {
        let mut files = sample(rt.alloc(), &[failing])?;
        match (read_all(rt.alloc(), &mut files, name, limit), want) {
            (Ok(bytes), Ok(wanted)) => assert_eq!(rt; bytes.as_slice(), wanted, "{limit}"),
            (Err(fault), Err(wanted)) => assert_eq!(rt; fault, wanted, "{limit}"),
            _ => assert!(rt; false, "{name} with {limit} and {failing}"),
        }
    }
    Ok(())
}

#[test]
fn a_sink_in_memory(rt: HostRuntime) -> Result<(), Fail> {
    let mut out = MemSink::new(rt.alloc(), [2].to_vec(rt.alloc())?);
    assert_eq!(rt; write_all(&mut out, b"one"), Ok(()));
    assert_eq!(rt; write_all(&mut out, b""), Ok(()));
    assert_eq!(rt; write_all(&mut out, b"two"), Err(Failure::Fault));
    assert_eq!(rt; out.write(b"three"), Ok(5));
    assert_eq!(rt; out.bytes(), b"onethree".as_slice());
    Ok(())
}

// So many bytes.
fn counting_bytes(alloc: Global, count: u32) -> Result<Vec<u8>, AllocError> {
    let mut bytes = Vec::new(alloc);
    for place in 0..count {
        bytes.push((place % 251) as u8)?;
    }
    Ok(bytes)
}

#[test]
fn files_of_the_system(rt: HostRuntime) -> Result<(), Fail> {
    let alloc = rt.alloc();
    let _ = fs::remove_dir_all(&rt, "folder");
    fs::create_dir(&rt, "folder")?;
    let mut files = DiskFiles::new(rt.clone()?);
    for count in [200_000u32, 65_537, 65_536, 65_535, 1, 0] {
        let bytes = counting_bytes(alloc, count)?;
        assert_eq!(rt; files.put("folder/file", &bytes), Ok(()));
        for limit in [count as u64, count as u64 + 1] {
            match read_all(alloc, &mut files, "folder/file", limit) {
                Ok(found) => assert!(rt; found.as_slice() == bytes.as_slice(), "{count}"),
                Err(fault) => assert_eq!(rt; Err(fault), Ok(()), "{count}"),
            }
        }
        if count > 0 {
            let short = read_all(alloc, &mut files, "folder/file", count as u64 - 1);
            assert!(rt; matches!(&short, Err(ReadFault::TooLong)), "{count}");
        }
    }
    assert_eq!(rt; files.put("folder", b""), Err(Failure::Fault));
    for name in ["folder", "none", "folder/none", ""] {
        let mut into = [0u8; 2];
        assert_eq!(rt;
            files.read_at(name, 0, &mut into),
            Err(Failure::Fault),
            "{name}"
        );
    }
    fs::remove_file(&rt, "folder/file")?;
    fs::remove_dir(&rt, "folder")?;
    Ok(())
}

// An output that takes one byte at a time, until it is full.
#[derive(Drop)]
struct Narrow<'a> {
    taken: &'a Cell<usize>,
    room: usize,
}

impl Print for Narrow<'_> {
    fn print<D: std::fmt::Display + Drop>(&self, _: D) -> io::Result<()> {
        Ok(())
    }

    fn println<D: std::fmt::Display + Drop>(&self, _: D) -> io::Result<()> {
        Ok(())
    }

    fn write_all(&self, _: &[u8]) -> io::Result<()> {
        Ok(())
    }

    fn write_some(&self, bytes: &[u8]) -> io::Result<usize> {
        let taken = self.taken.get();
        if bytes.is_empty() || taken >= self.room {
            return Ok(0);
        }
        self.taken.set(taken + 1);
        Ok(1)
    }
}

#[test]
fn the_standard_output(rt: HostRuntime) -> Result<(), Fail> {
    let mut out = StdSink::new(rt.clone()?);
    assert_eq!(rt; write_all(&mut out, b"written\n"), Ok(()));
    let taken = Cell::new(0);
    let mut narrow = StdSink::new(Narrow {
        taken: &taken,
        room: 6,
    });
    assert_eq!(rt; narrow.write(b""), Ok(0));
    assert_eq!(rt; write_all(&mut narrow, b"text"), Ok(()));
    assert_eq!(rt; taken.get(), 4);
    assert_eq!(rt; write_all(&mut narrow, b"text"), Err(Failure::Fault));
    assert_eq!(rt; taken.get(), 6);
    Ok(())
}
