//! Files in the memory of the program.

use ram_disk::RamFile;
use sqlite_disk::Disk;
use std::io;
use std::test::Fail;

/// Whether a file has the bytes of two writes, the second past the end, up to a cut.
fn has_what_was_written(file: &mut RamFile) -> io::Result<bool> {
    file.write_at(1, b"bc")?;
    file.write_at(4, b"efg")?;
    file.write_at(0, b"a")?;
    file.set_len(6)?;
    file.sync()?;
    let mut bytes = [1; 6];
    file.read_at(0, &mut bytes)?;
    Ok(bytes == *b"abc\0ef" && file.len()? == 6 && file.read_at(1, &mut bytes).is_err())
}

#[test]
fn bytes_are_read_as_they_were_written(rt: HostRuntime) -> Result<(), Fail> {
    let mut file = RamFile::new(rt.alloc());
    let read = has_what_was_written(&mut file);
    drop(file);
    assert!(rt; read?);
    Ok(())
}
