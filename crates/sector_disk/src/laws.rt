//! Laws of the model, each for every device, every list of events and every image.
ghost use Rattle.sector_disk.specs.Laws.{HasOneImage, HasOldOrNew, HasChoices};

/// Proves that after a successful sync, if no write follows, a crash leaves exactly one image: the one that
/// reads return.
pub fn one_image_after_a_sync()
    ensures { HasOneImage }
{}

/// Proves that a crash within a write leaves in each of its sectors the old content or the new one, and that
/// any combination of them is possible.
pub fn a_crash_within_a_write_leaves_old_or_new_sectors()
    ensures { HasOldOrNew }
{}

/// Proves that every image that a crash may leave is the image that a crash of a device in memory leaves for
/// some choices.
pub fn a_crash_can_leave_any_possible_image()
    ensures { HasChoices }
{}
