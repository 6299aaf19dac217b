//! Laws of the record of a file. Each holds for every list of entries.
ghost use Rattle.file_disk.specs.Laws.{StaysHonest, BehavesAsInMemory};

/// Proves that a file can stay honest: it is honest if its reads return what the model's device has, and if
/// reads do not change after a failed call.
pub fn a_file_can_stay_honest()
    ensures { StaysHonest }
{}

/// Proves that, after the same writes and syncs, a file and a device in memory read the same, and that a crash
/// may leave the same images.
pub fn a_file_behaves_as_a_device_in_memory()
    ensures { BehavesAsInMemory }
{}
