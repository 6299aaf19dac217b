//! Laws about every image.
ghost use Rattle.checkpoint.specs.Laws.{HoldAtMostOne, NeverBoth, HaveOneFault, HoldOrHaveAFault, ConsistentHasNoWarning, RecordsKeepConsistency, SnapshotsKeepConsistency, HeadersKeepConsistency, FormatsAreConsistent};

use state_codec::{bytes_have_one_answer, encodings_are_injective};

/// Proves that an image holds at most one state with its commands and place, has no fault if it holds one, and
/// has at most one fault.
pub fn images_hold_at_most_one_state()
    ensures one { HoldAtMostOne }
    ensures never_both { NeverBoth }
    ensures one_fault { HaveOneFault }
{
    encodings_are_injective();
    bytes_have_one_answer();
}

/// Proves that every image holds a state or has a fault.
pub fn images_hold_a_state_or_have_a_fault()
    ensures { HoldOrHaveAFault }
{
    bytes_have_one_answer();
}

/// Proves that a new store is consistent, and so is each image that a crash within a commit leaves of a
/// consistent store. A consistent store has no integrity warning.
pub fn commits_leave_no_integrity_warning()
    ensures without_warning { ConsistentHasNoWarning }
    ensures records { RecordsKeepConsistency }
    ensures snapshots { SnapshotsKeepConsistency }
    ensures headers { HeadersKeepConsistency }
    ensures formats { FormatsAreConsistent }
{}
