//! Dumps that are changed. The last 32 bytes of a dump are the digest of those before.

use sha2::{Digest, Sha256};
use std::alloc::{AllocError, Global};
use std::process::Abort;

/// The first bytes.
pub fn cut<'a>(rt: &impl Abort, bytes: &'a [u8], length: usize) -> &'a [u8] {
    assert!(rt; length <= bytes.len());
    &bytes[..length]
}

/// The bytes and their digest.
pub fn closed(alloc: Global, bytes: &[u8]) -> Result<Vec<u8>, AllocError> {
    let mut dump = Vec::from_slice(alloc, bytes)?;
    dump.extend_from_slice(&Sha256::digest(bytes))?;
    Ok(dump)
}

/// What is before the closing digest of a dump, with other bytes at some places.
pub fn changed(
    rt: &impl Abort,
    alloc: Global,
    dump: &[u8],
    changes: &[(usize, u8)],
) -> Result<Vec<u8>, AllocError> {
    let open = dump.len().checked_sub(32).expect(rt, "a digest");
    let mut bytes = Vec::from_slice(alloc, cut(rt, dump, open))?;
    for (place, byte) in changes {
        assert!(rt; *place < bytes.len());
        bytes[*place] = *byte;
    }
    Ok(bytes)
}

/// The bytes with others put in at a place.
pub fn put_in(
    rt: &impl Abort,
    alloc: Global,
    bytes: &[u8],
    place: usize,
    more: &[u8],
) -> Result<Vec<u8>, AllocError> {
    assert!(rt; place <= bytes.len());
    let (before, after) = bytes.split_at(place);
    let mut longer = Vec::from_slice(alloc, before)?;
    longer.extend_from_slice(more)?;
    longer.extend_from_slice(after)?;
    Ok(longer)
}
