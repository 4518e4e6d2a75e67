//! The files that are read.
use ga_input::{InputFault, Reads, ServeError, read_input};
use std::fs::OpenFile;
use std::io::ErrorKind::{NotFound, OutOfMemory};
use std::io::Read;
use std::os::unix::fs::MetadataExt;
use std::rt::Files;
use std::{fs, io};

/// The file to which standard output goes.
const STANDARD_OUTPUT: &str = "/dev/stdout";

/// The bytes of the file with a name, or of standard input for `-`.
pub fn input_named<Rt: AllocGlobal + Files, R: Read>(
    rt: &Rt,
    reader: &mut R,
    name: &str,
) -> Result<Vec<u8>, ServeError> {
    if name == "-" {
        return read_input(rt.alloc(), reader, &mut Reads::default());
    }
    read_input(rt.alloc(), &mut opened(rt, name)?, &mut Reads::default())
}

/// The file with a name, to be read.
pub fn opened<R: Files>(rt: &R, name: &str) -> Result<R::File, ServeError> {
    match fs::open(rt, name) {
        Ok(file) => match file.metadata() {
            Ok(found) if found.is_dir() => Err(ServeError::Input(InputFault::Folder)),
            _ => Ok(file),
        },
        Err(error) => Err(match error.kind() {
            NotFound => ServeError::Input(InputFault::NoFile),
            OutOfMemory => ServeError::Memory,
            _ => ServeError::Read,
        }),
    }
}

/// The bytes of the regular file with a name.
pub fn regular_input<Rt: AllocGlobal + Files>(rt: &Rt, name: &str) -> Result<Vec<u8>, ServeError> {
    read_input(rt.alloc(), &mut regular(rt, name)?, &mut Reads::default())
}

/// The regular file with a name, to be read. Any other is refused before it is opened, since
/// opening a pipe waits for its writer.
fn regular<R: Files>(rt: &R, name: &str) -> Result<R::File, ServeError> {
    match fs::metadata(rt, name) {
        Ok(found) if !found.is_file() && !found.is_dir() => {
            Err(ServeError::Input(InputFault::NotAFile))
        }
        _ => opened(rt, name),
    }
}

/// Whether the regular file with a name has these bytes, as FILE has by another name. An empty file
/// has nothing to lose.
pub fn has_bytes<Rt: AllocGlobal + Files>(rt: &Rt, name: &str, bytes: &[u8]) -> bool {
    match regular_input(rt, name) {
        Ok(found) => { !bytes.is_empty() && found.len() == bytes.len() && found.starts_with(bytes) }
        Err(_) => false,
    }
}

/// Whether the file with a name is the one to which standard output goes.
pub fn is_standard_output<R: Files>(rt: &R, name: &str) -> bool {
    match (fs::metadata(rt, STANDARD_OUTPUT), fs::metadata(rt, name)) {
        (Ok(one), Ok(other)) => one.dev() == other.dev() && one.ino() == other.ino(),
        _ => false,
    }
}

/// A reader that gives no more once it has ended. A terminal would go on, so that a Ctrl-D that
/// ends a line would have to be typed once more behind it.
#[derive(Drop)]
pub struct EndsOnce<'a, R> {
    pub reader: &'a mut R,
    pub has_ended: bool,
}

impl<R: Read> Read for EndsOnce<'_, R> {
    fn read(&mut self, buf: &mut [u8]) -> io::Result<usize> {
        if self.has_ended {
            return Ok(0);
        }
        let count = self.reader.read(buf)?;
        self.has_ended = count == 0 && !buf.is_empty();
        Ok(count)
    }
}
