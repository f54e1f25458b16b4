//! Files that hold a printed store.
use std::fs;
use std::fs::File;
use std::io::Read;
use std::str::from_utf8;

// One byte more than a printed store has, so that a longer file is seen to be longer.
const MOST: u64 = 577;

// The first 577 bytes of a file, or all that it has; none where it cannot be read.
pub fn read_file(rt: &HostRuntime, path: &[u8]) -> Option<Vec<u8>> {
    let mut bytes = Vec::new(rt.alloc());
    let file = File::open(rt, from_utf8(path).ok()?).ok()?;
    file.take(MOST).read_to_end(&mut bytes).ok()?;
    Some(bytes)
}

// Writes the bytes of a printed store to a file; none where it cannot be written.
pub fn write_file(rt: &HostRuntime, path: &[u8], bytes: &[u8; 576]) -> Option<()> {
    fs::write(rt, from_utf8(path).ok()?, &bytes[..]).ok()
}
