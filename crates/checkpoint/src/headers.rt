//! Encodes and decodes headers.
ghost use Rattle.std.specs.Prelude.{◌≡◌, ℕ, ◌^◌, ◌<◌, ◌≤◌, length, IfSome, Some, None};
ghost use Rattle.checkpoint.specs.Headers.{header_bytes};
ghost use Rattle.checkpoint.specs.declared.headers.Header.{Header};

use byteorder::{BigEndian, ByteOrder};
use sector_disk::SECTOR_SIZE;

pub(crate) const MAGIC: [u8; 8] = *b"PDRSTORE";

/// A header of a store.
#[derive(Clone, Copy, Debug, PartialEq, Eq)]
pub struct Header {
    /// The sequence of the snapshot and of its records.
    pub sequence: u64,
    /// The length of the snapshot in bytes.
    pub length: u64,
}

/// Returns the sector of a header.
pub(crate) fn header_sector(version: u32, header: Header) -> [u8; SECTOR_SIZE]
    ensures { result ≡ header_bytes version header }
{
    let mut sector = [0; SECTOR_SIZE];
    sector[..8].copy_from_slice(&MAGIC);
    BigEndian::write_u32(&mut sector[8..], version);
    BigEndian::write_u64(&mut sector[12..], header.sequence);
    BigEndian::write_u64(&mut sector[20..], header.length);
    sector
}

/// Returns the header that a sector holds in a store of this version, if it holds one.
pub(crate) fn header_in(version: u32, sector: &[u8]) -> Option<Header>
    requires { length sector.now ≡ 512 }
    ensures only { IfSome result (λ header. sector.now ≡ header_bytes version header) }
    ensures all { (header : Header) → header.sequence < 2 ^ 64 → header.length < 2 ^ 64
        → sector.now ≡ header_bytes version header → result ≡ Some header }
{
    let header = Header {
        sequence: BigEndian::read_u64(&sector[12..]),
        length: BigEndian::read_u64(&sector[20..]),
    };
    if sector == header_sector(version, header).as_slice() {
        Some(header)
    } else {
        None
    }
}
