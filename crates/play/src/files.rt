// Whole files, and what their names say.
use std::fs::{File, OpenOptions};
use std::io::Read;
use std::{fs, io};

// What the system's open says of a name that is no text: the library opens only names that are UTF-8.
const EILSEQ: i32 = 84;

// A file's name, as the library takes it.
pub fn name_of(path: &[u8]) -> io::Result<&str> {
    std::str::from_utf8(path).map_err(|_| io::Error::from_raw_os_error(EILSEQ))
}

// A new file; one that is there is not replaced.
pub fn created(rt: &HostRuntime, path: &[u8]) -> io::Result<File> {
    let name = name_of(path)?;
    OpenOptions::new()
        .write(true)
        .create_new(true)
        .open(rt, name)
}

pub fn removed(rt: &HostRuntime, path: &[u8]) -> io::Result<()> {
    fs::remove_file(rt, name_of(path)?)
}

// A file's bytes into a buffer, as many as there is room for.
pub fn read<'a>(rt: &HostRuntime, path: &[u8], buffer: &'a mut [u8]) -> io::Result<&'a [u8]> {
    let mut file = fs::open(rt, name_of(path)?)?;
    let n = program_io::read_full(&mut file, buffer);
    let mut one = [0u8; 1];
    file.read(&mut one)?;
    Ok(&buffer[..n])
}

// Whether a name ends in .txt or .sasl: such a score is text.
pub fn is_text(path: &[u8]) -> bool {
    path.ends_with(b".txt") || path.ends_with(b".sasl")
}
