//! Writing a file whole: its old bytes stand under the name until its new ones are on the disk.

use arrayvec::ArrayString;
use std::fmt::{Display, Write as _};
use std::fs::{self, File, Permissions};
use std::io::{self, ErrorKind, Write};
use std::path::Path;
use std::rt::Files;

// As many links as Linux follows from one name.
const MOST_LINKS: u8 = 40;

// A path that Linux opens is shorter.
const MOST_PATH: usize = 4096;

// A path that takes no memory.
type ShortPath = ArrayString<MOST_PATH>;

/// Gives the name these bytes. Where a file stands there, or nothing, they are written beside it and
/// take its place once they are on the disk. Anything else, as a FIFO or a device, is written to. A
/// link stands for what it leads to; memory is taken for a link alone.
pub(crate) fn put_whole<R: Files<File = File> + Alloc>(
    rt: &R,
    name: &str,
    bytes: &[u8],
) -> io::Result<()> {
    let old = open_old(rt, name)?;
    let path = end_of_links(rt, name)?;
    let Some(old) = old else {
        return replace(rt, path.as_str(), None, bytes);
    };
    let metadata = old.metadata()?;
    if !metadata.is_file() {
        return write_open(old, bytes);
    }
    if Path::new(path.as_str()).is_symlink(rt) {
        old.set_len(0)?;
        return write_open(old, bytes);
    }
    replace(rt, path.as_str(), Some(metadata.permissions()), bytes)
}

/// What stands under the name, open for writing and as it was. What may not be written is an error,
/// also where the folder would let it be replaced.
fn open_old<R: Files<File = File>>(rt: &R, name: &str) -> io::Result<Option<File>> {
    match File::options().write(true).open(rt, name) {
        Ok(file) => Ok(Some(file)),
        Err(error) if error.kind() == ErrorKind::NotFound => Ok(None),
        Err(error) => Err(error),
    }
}

/// The links of these folders stand for open files, as /dev/stdout does at last.
fn is_of_process(path: &str) -> bool {
    path.starts_with("/proc/") || path.starts_with("/dev/fd/")
}

/// Where the name's links end, also where nothing stands there. A link that stands for an open file of
/// a process is an end, since it leads to no path.
fn end_of_links<R: Files + Alloc>(rt: &R, name: &str) -> io::Result<ShortPath> {
    let mut path = ShortPath::new();
    append(&mut path, name)?;
    for _ in 0..MOST_LINKS {
        if is_of_process(path.as_str()) || !Path::new(path.as_str()).is_symlink(rt) {
            return Ok(path);
        }
        let target = fs::read_link(rt, path.as_str())?;
        path = if target.is_absolute() {
            ShortPath::new()
        } else {
            folder_of(path.as_str())?
        };
        append(&mut path, target.as_str())?;
    }
    Err(io::Error::from(ErrorKind::FilesystemLoop))
}

/// The folder of the path, with a slash at its end.
fn folder_of(path: &str) -> io::Result<ShortPath> {
    let mut folder = ShortPath::new();
    if let Some((before, _)) = path.rsplit_once('/') {
        append(&mut folder, before)?;
        append(&mut folder, '/')?;
    }
    Ok(folder)
}

fn append<D: Display + Drop>(path: &mut ShortPath, what: D) -> io::Result<()> {
    write!(path, "{what}").map_err(|_| io::Error::from(ErrorKind::InvalidFilename))
}

/// Writes the bytes into a file beside the path, which then takes the path's place. After a fault
/// that file is removed, and what stood under the path stands there still.
fn replace<R: Files<File = File>>(
    rt: &R,
    path: &str,
    permissions: Option<Permissions>,
    bytes: &[u8],
) -> io::Result<()> {
    let (beside, file) = create_beside(rt, path)?;
    let replaced = fill(file, permissions, bytes).and_then(|()| fs::rename(
        rt,
        beside.as_str(),
        path,
    ));
    if replaced.is_err() {
        // The fault that is told is the first.
        let _ = fs::remove_file(rt, beside.as_str());
    }
    replaced
}

/// A new file in the folder of the path. A name that is there already belongs to another put, or to
/// one that was killed, and is left alone.
fn create_beside<R: Files<File = File>>(rt: &R, path: &str) -> io::Result<(ShortPath, File)> {
    for number in 0..u32::MAX {
        let mut beside = folder_of(path)?;
        append(&mut beside, ".tm-put-")?;
        append(&mut beside, number)?;
        match File::options()
            .write(true)
            .create_new(true)
            .open(rt, beside.as_str())
        {
            Ok(file) => return Ok((beside, file)),
            Err(error) if error.kind() == ErrorKind::AlreadyExists => {}
            Err(error) => return Err(error),
        }
    }
    Err(io::Error::from(ErrorKind::AlreadyExists))
}

/// Puts the bytes on the disk, under the permissions of what stood there before.
fn fill(mut file: File, permissions: Option<Permissions>, bytes: &[u8]) -> io::Result<()> {
    if let Some(permissions) = permissions {
        file.set_permissions(permissions)?;
    }
    file.write_all(bytes)?;
    file.sync_all()
}

fn write_open(mut file: File, bytes: &[u8]) -> io::Result<()> {
    file.write_all(bytes)
}
