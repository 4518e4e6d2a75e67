//! Sessions that are saved in the files of the system.
use ga_input::{InputFault, ServeError};
use ga_prompt::{SaveFault, Saves};
use std::alloc::{AllocError, Global};
use std::fs::{Metadata, OpenFile, OpenOptions};
use std::io::ErrorKind::{AlreadyExists, NotFound, OutOfMemory};
use std::io::Write;
use std::os::unix::fs::{MetadataExt, OpenOptionsExt, chown};
use std::path::PathBuf;
use std::rt::Files;
use std::{fs, io};

/// What is behind the name of a file in that of the one that replaces it.
const UNFINISHED: &str = ".ga-bench-unfinished";

/// Who may read and write a new file, but for what the umask forbids.
const SHARED: u32 = 0o666;

/// The same of a file that replaces another one, until it has the mode of that.
const PRIVATE: u32 = 0o600;

/// The files of the system.
#[derive(Drop)]
pub struct SavedFiles<'a, F> {
    pub alloc: Global,
    pub files: &'a F,
}

impl<F: Files> Saves for SavedFiles<'_, F> {
    fn save(&mut self, name: &str, transcript: &str, replaces: bool) -> Result<(), SaveFault> {
        if !replaces {
            return self.write_new(name, transcript);
        }
        self.put(name, transcript)
    }
}

impl<F: Files> SavedFiles<'_, F> {
    /// Writes a text into a file, which it replaces if it is there.
    pub fn put(&self, name: &str, text: &str) -> Result<(), SaveFault> {
        match fs::symlink_metadata(self.files, name) {
            Ok(found) if found.is_file() => self.replace(name, text, &found),
            Ok(found) if found.is_symlink() => self.replace_linked(name, text),
            Ok(_) => Err(SaveFault::NotAFile),
            Err(error) if error.kind() == NotFound => self.write_new(name, text),
            Err(error) => Err(fault_of(error)),
        }
    }

    /// Writes a text into a new file, which is there as a whole or not at all.
    fn write_new(&self, name: &str, text: &str) -> Result<(), SaveFault> {
        let beside = self.beside(name)?;
        match fs::symlink_metadata(self.files, name) {
            Err(error) if error.kind() == NotFound => {}
            Err(error) => return Err(fault_of(error)),
            Ok(_) => return Err(SaveFault::Exists),
        }
        let _ = self.fill(beside.as_str(), text, SHARED)?;
        // A link replaces no file that came in the meantime. Some file systems have none.
        let put = match self.files.hard_link(beside.as_str(), name) {
            Ok(()) => return fs::remove_file(self.files, beside.as_str()).map_err(fault_of),
            Err(error) if error.kind() == AlreadyExists => Err(error),
            Err(_) => fs::rename(self.files, beside.as_str(), name),
        };
        self.moved(beside.as_str(), put)
    }

    /// Replaces the file that a symbolic link leads to, as an editor does. The link stays.
    fn replace_linked(&self, link: &str, text: &str) -> Result<(), SaveFault> {
        match fs::metadata(self.files, link) {
            Ok(found) if found.is_file() => {
                let path: PathBuf = self.files.canonicalize(self.alloc, link).map_err(fault_of)?;
                self.replace(path.as_str(), text, &found)
            }
            // It leads to a folder, a device or a pipe, or nowhere.
            Ok(_) => Err(SaveFault::NotAFile),
            Err(error) if error.kind() == NotFound => Err(SaveFault::NotAFile),
            Err(error) => Err(fault_of(error)),
        }
    }

    /// Writes a text into a new file beside another, which it then replaces. Its owner, its group,
    /// and who may read and write it stay the same, or nothing is replaced.
    fn replace(&self, name: &str, text: &str, found: &Metadata) -> Result<(), SaveFault> {
        let beside = self.beside(name)?;
        let file = self.fill(beside.as_str(), text, PRIVATE)?;
        let put = match self.give(&file, beside.as_str(), found) {
            Ok(()) => fs::rename(self.files, beside.as_str(), name),
            Err(error) => Err(error),
        };
        self.moved(beside.as_str(), put)
    }

    /// Gives a file the owner, the group and the mode of another one.
    fn give(&self, file: &F::File, name: &str, found: &Metadata) -> io::Result<()> {
        let own = file.metadata()?;
        if own.uid() != found.uid() || own.gid() != found.gid() {
            chown(self.files, name, Some(found.uid()), Some(found.gid()))?;
        }
        file.set_permissions(found.permissions())
    }

    /// The name of the file by which one with a name is written. What a killed call left there
    /// goes.
    fn beside(&self, name: &str) -> Result<String, SaveFault> {
        let Ok(beside) = format!(in self.alloc; "{name}{UNFINISHED}") else {
            return Err(SaveFault::Memory);
        };
        match fs::symlink_metadata(self.files, beside.as_str()) {
            Ok(left) if left.is_file() => {
                fs::remove_file(self.files, beside.as_str()).map_err(fault_of)?;
            }
            _ => {}
        }
        Ok(beside)
    }

    /// Writes a text into a new file with a mode, up to the disk, or removes the file.
    fn fill(&self, name: &str, text: &str, mode: u32) -> Result<F::File, SaveFault> {
        let mut options = OpenOptions::new();
        options.write(true).create_new(true).mode(mode);
        let mut file = options.open(self.files, name).map_err(fault_of)?;
        let filled = written(&mut file, text);
        self.moved(name, filled)?;
        Ok(file)
    }

    /// The outcome of a change to a file that isn't finished. If it failed, removes the file.
    fn moved(&self, name: &str, outcome: io::Result<()>) -> Result<(), SaveFault> {
        match outcome {
            Ok(()) => Ok(()),
            Err(error) => {
                let _ = fs::remove_file(self.files, name);
                Err(fault_of(error))
            }
        }
    }
}

/// Replaces a file by a text, in one step.
pub fn put<Rt: AllocGlobal + Files>(rt: &Rt, name: &str, text: &str) -> Result<(), PutFault> {
    let alloc = rt.alloc();
    match (SavedFiles { alloc, files: rt }).put(name, text) {
        Ok(()) => Ok(()),
        Err(SaveFault::Memory) => Err(PutFault::Fault(ServeError::Memory)),
        Err(SaveFault::NotAFile) => Err(PutFault::Fault(ServeError::Input(InputFault::NotAFile))),
        Err(SaveFault::Exists) => Err(PutFault::Fault(ServeError::Write)),
        Err(SaveFault::Write(error)) => Err(PutFault::Write(error)),
    }
}

/// Why a file isn't replaced.
#[derive(Drop)]
pub enum PutFault {
    /// The text that would replace it has a fault, or the file is none that can be replaced.
    Fault(ServeError),
    /// The system doesn't write it, for this reason.
    Write(io::Error),
}

impl From<ServeError> for PutFault {
    fn from(fault: ServeError) -> PutFault {
        PutFault::Fault(fault)
    }
}

impl From<AllocError> for PutFault {
    fn from(_fault: AllocError) -> PutFault {
        PutFault::Fault(ServeError::Memory)
    }
}

/// Writes a text into a file, up to the disk.
fn written<O: Write + OpenFile>(file: &mut O, text: &str) -> io::Result<()> {
    file.write_all(text.as_bytes())?;
    file.flush()?;
    file.sync_all()
}

/// Why a session wasn't saved, by the error of the system.
fn fault_of(error: io::Error) -> SaveFault {
    match error.kind() {
        AlreadyExists => SaveFault::Exists,
        OutOfMemory => SaveFault::Memory,
        _ => SaveFault::Write(error),
    }
}
