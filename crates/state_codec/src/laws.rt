//! Laws of encodings.
ghost use Rattle.state_codec.specs.Laws.{StateEncodingIsInjective, RecordEncodingIsInjective, StatesHaveNoFault, FaultsAreOne, BytesAreDecided, RecordsAreDecided, BadFieldsPersist, ExtraBytesAreBad, PrefixesAreTruncated};
ghost use Rattle.state_codec.specs.Lengths.{EncodingsFit};

use plan_audit::{
    each_plan_has_a_verdict, feasible_alone_decides_feasibility, passes_decides_the_verdict,
    pins_are_distinct_stops, verdicts_are_unique,
};
use plan_types::{numbers_are_below_next_number, put_adds_one_request};

/// Proves the length of a state's encoding, which is at most 1,960,054.
pub fn encodings_fit()
    ensures { EncodingsFit }
{
    numbers_are_below_next_number();
}

/// Proves that two states that satisfy their invariants are equal if their encodings are, and that two records
/// with the same bytes have the same sequence, index and command.
pub fn encodings_are_injective()
    ensures states { StateEncodingIsInjective }
    ensures records { RecordEncodingIsInjective }
{
    numbers_are_below_next_number();
}

/// Proves that bytes have exactly one answer. Either they are the encoding of a state that satisfies its
/// invariants, and have no fault, or they have exactly one fault. A sector is the record of one command or of
/// none.
pub fn bytes_have_one_answer()
    ensures states { StatesHaveNoFault }
    ensures faults { FaultsAreOne }
    ensures decided { BytesAreDecided }
    ensures records { RecordsAreDecided }
{
    numbers_are_below_next_number();
    verdicts_are_unique();
    each_plan_has_a_verdict();
    passes_decides_the_verdict();
    feasible_alone_decides_feasibility();
    pins_are_distinct_stops();
    put_adds_one_request();
}

/// Proves what faults mean in terms of encodings: a bad field stays one whatever follows, a byte after an
/// encoding is a bad field, and each proper prefix of an encoding is truncated. The last two also hold for bytes
/// that only a rule of the auditor refuses.
pub fn faults_follow_from_encodings()
    ensures stay { BadFieldsPersist }
    ensures following { ExtraBytesAreBad }
    ensures prefixes { PrefixesAreTruncated }
{
    numbers_are_below_next_number();
}
