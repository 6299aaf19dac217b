//! The layout of a store.
ghost use Rattle.std.specs.Prelude.{◌≡◌};
ghost use Rattle.checkpoint.specs.Layouts.{sectors_in, half_at};
ghost use Rattle.checkpoint.specs.Holds.{layout_of};

use state_codec::version::Version;

/// The layout of a store. Sectors 0 and 1 are headers, sectors 2..=257 records. Two halves for snapshots
/// follow.
#[derive(Clone, Copy, Debug, PartialEq, Eq)]
pub struct Layout {
    /// The version of the format that the headers name.
    pub version: u32,
    /// The number of sectors of each half.
    pub half: u32,
}

/// The number of records that a journal has room for.
pub const RECORDS: u32 = 256;

/// The last sequence of a store.
pub const LAST_SEQUENCE: u64 = 1 << 60;

/// The number of sectors before the halves: two headers and the records.
const PREFIX_SECTORS: u64 = 2 + RECORDS as u64;

/// The number of bytes before the halves.
pub(crate) const PREFIX_BYTES: usize = PREFIX_SECTORS as usize * 512;

/// The number of sectors of a store of the current version.
pub const SECTORS: u64 = PREFIX_SECTORS + 2 * VERSION_2.half as u64;

/// The number of sectors of the smallest store of any version.
pub const MIN_SECTORS: u64 = PREFIX_SECTORS + 2 * VERSION_1.half as u64;

/// The layout of a store of version 1: 802 sectors. Such a store is only read.
const VERSION_1: Layout = Layout {
    version: 1,
    half: 272,
};

/// The layout of a store of the current version: 8,450 sectors.
pub(crate) const VERSION_2: Layout = Layout {
    version: 2,
    half: 4096,
};

/// Returns the layout of a version of the format.
pub(crate) fn layout_of(version: Version) -> Layout
    ensures { result ≡ layout_of version }
{
    match version {
        Version::One => VERSION_1,
        Version::Two => VERSION_2,
    }
}

/// Returns the number of sectors of a store with this layout.
pub(crate) fn sectors_in(layout: Layout) -> u64
    ensures { result ≡ sectors_in layout }
{
    PREFIX_SECTORS + 2 * u64::from(layout.half)
}

/// Returns the first sector of the half that holds the snapshot of a sequence.
pub(crate) fn half_start(layout: Layout, sequence: u64) -> u64
    ensures { result ≡ half_at layout sequence }
{
    PREFIX_SECTORS + u64::from(layout.half) * (sequence % 2)
}
