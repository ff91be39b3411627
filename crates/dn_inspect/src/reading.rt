//! Reading the directory of a WAD, and its lumps.

use crate::wad::{Directory, ENTRY, HEADER, Lump};
use std::alloc::{AllocError, AllocFailed, Global};
use std::io::{BufReader, ErrorKind, Read, Seek, SeekFrom, Take};
use thiserror::Error;

/// Why a WAD's lumps are not found.
#[derive(Clone, Copy, Debug, PartialEq, Eq, Error)]
pub enum WadFault {
    /// Its first bytes are those of no WAD.
    #[error("no WAD")]
    Header,
    /// It ends before its directory does.
    #[error("a WAD that is cut: its directory is not whole")]
    Cut,
    /// It could not be read.
    #[error("read fault")]
    Read,
    /// Memory for the lumps was refused.
    #[error("out of memory")]
    Memory,
}

impl From<AllocError> for WadFault {
    fn from(_e: AllocError) -> WadFault {
        WadFault::Memory
    }
}

impl From<AllocFailed<Lump>> for WadFault {
    fn from(_e: AllocFailed<Lump>) -> WadFault {
        WadFault::Memory
    }
}

/// Fills the room from the file.
fn read<F: Read>(file: &mut F, room: &mut [u8]) -> Result<(), WadFault> {
    match file.read_exact(room) {
        Ok(()) => Ok(()),
        Err(error) if error.kind() == ErrorKind::UnexpectedEof => Err(WadFault::Cut),
        Err(_) => Err(WadFault::Read),
    }
}

/// Goes to a place of the file.
fn go<F: Seek>(file: &mut F, place: u32) -> Result<(), WadFault> {
    match file.seek(SeekFrom::Start(u64::from(place))) {
        Ok(_) => Ok(()),
        Err(_) => Err(WadFault::Read),
    }
}

/// Where the directory of a file stands.
fn directory<F: Read + Seek>(file: &mut F) -> Result<Directory, WadFault> {
    let mut header = [0; HEADER];
    go(file, 0)?;
    read(file, &mut header)?;
    Directory::of(&header).ok_or(WadFault::Header)
}

/// The lumps of a WAD whose names begin so, in the order of its directory. Letters of either case are the same.
pub fn lumps<F: Read + Seek>(
    alloc: Global,
    file: &mut F,
    front: &[u8],
) -> Result<Vec<Lump>, WadFault> {
    let Directory { count, place } = directory(file)?;
    go(file, place)?;
    let mut input = BufReader::new(alloc, file).map_err(|_| WadFault::Memory)?;
    let mut found = Vec::new(alloc);
    for _ in 0..count {
        let mut entry = [0; ENTRY];
        read(&mut input, &mut entry)?;
        let lump = Lump::of(&entry);
        if lump.begins(front) {
            found.push(lump)?;
        }
    }
    Ok(found)
}

/// The bytes of a lump.
pub fn open<F: Read + Seek + Drop>(file: F, lump: &Lump) -> Result<Take<F>, WadFault> {
    let mut file = file;
    go(&mut file, lump.place)?;
    Ok(file.take(u64::from(lump.size)))
}
