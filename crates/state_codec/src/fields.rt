//! Fields at the start of bytes.
ghost use Rattle.std.specs.Prelude.{◌≡◌, ◌&&◌, List, ℕ, nat_le, Ok, Err, if◌then◌else◌};
ghost use Rattle.command_types.specs.AddedRequests.{is_coordinate};
ghost use Rattle.state_codec.specs.Bytes.{width};
ghost use Rattle.state_codec.specs.declared.fault.CodecFault.TheVariants.{BadField};
ghost use Rattle.state_codec.specs.Reading.{ReadsMore, times};
ghost use Rattle.state_codec.specs.Fields.{Field, Reads, Gives, only, byte_at, number_at, signed_at, point_at, window_at, is_time};

use crate::fault::CodecFault;
use crate::version::Version;
use command_types::is_coordinate;
use plan_types::limits::MAX_TIME;

/// The value of a field and the bytes after it, or why there is none.
pub(crate) type Field<'a, X> = Result<(X, &'a [u8]), CodecFault>;

#[tactic(auto, unfolding(crate::specs::Fields::byte_at))]
pub(crate) fn u8_at(bytes: &[u8]) -> Field<'_, u8>
    ensures { Reads (λ x. (x.0, x.1.now)) result (byte_at bytes.now) }
{
    match bytes {
        [first, rest @ ..] => Ok((*first, rest)),
        [] => Err(CodecFault::Truncated),
    }
}

#[tactic(auto, unfolding(crate::specs::Fields::number_at))]
pub(crate) fn u16_at(bytes: &[u8]) -> Field<'_, u16>
    ensures { Reads (λ x. (x.0, x.1.now)) result (number_at 2 bytes.now) }
{
    if bytes.len() < 2 {
        return Err(CodecFault::Truncated);
    }
    let number = u16::from_be_bytes([bytes[0], bytes[1]]);
    Ok((number, &bytes[2..]))
}

#[tactic(auto, unfolding(crate::specs::Fields::number_at))]
pub(crate) fn u32_at(bytes: &[u8]) -> Field<'_, u32>
    ensures { Reads (λ x. (x.0, x.1.now)) result (number_at 4 bytes.now) }
{
    if bytes.len() < 4 {
        return Err(CodecFault::Truncated);
    }
    let number = u32::from_be_bytes([bytes[0], bytes[1], bytes[2], bytes[3]]);
    Ok((number, &bytes[4..]))
}

#[tactic(auto, unfolding(crate::specs::Fields::number_at))]
pub(crate) fn u64_at(bytes: &[u8]) -> Field<'_, u64>
    ensures { Reads (λ x. (x.0, x.1.now)) result (number_at 8 bytes.now) }
{
    if bytes.len() < 8 {
        return Err(CodecFault::Truncated);
    }
    let number = u64::from_be_bytes([
        bytes[0], bytes[1], bytes[2], bytes[3], bytes[4], bytes[5], bytes[6], bytes[7],
    ]);
    Ok((number, &bytes[8..]))
}

#[tactic(auto, unfolding(crate::specs::Fields::signed_at))]
pub(crate) fn i32_at(bytes: &[u8]) -> Field<'_, i32>
    ensures { Reads (λ x. (x.0, x.1.now)) result (signed_at bytes.now) }
{
    if bytes.len() < 4 {
        return Err(CodecFault::Truncated);
    }
    let number = i32::from_be_bytes([bytes[0], bytes[1], bytes[2], bytes[3]]);
    Ok((number, &bytes[4..]))
}

/// Reads a stop number, a count or a length.
pub(crate) fn number_at(version: Version, bytes: &[u8]) -> Field<'_, u32>
    ensures { Reads (λ x. (x.0, x.1.now)) result (number_at (width version) bytes.now) }
{
    match version {
        Version::One => {
            let (number, rest) = u16_at(bytes)?;
            Ok((u32::from(number), rest))
        }
        Version::Two => u32_at(bytes),
    }
}

/// Returns the value and the bytes after it if the value satisfies its rule, otherwise `BadField`.
pub(crate) fn only<T: Drop>(is_taken: bool, value: T, rest: &[u8]) -> Field<'_, T>
    ensures { let read : T × List ℕ = (value, rest.now) in
        Reads (λ x. (x.0, x.1.now)) result (if is_taken then Ok read else Err BadField) }
{
    if is_taken {
        Ok((value, rest))
    } else {
        Err(CodecFault::BadField)
    }
}

fn coordinate_at(bytes: &[u8]) -> Field<'_, i32>
    ensures { Reads (λ x. (x.0, x.1.now)) result (only is_coordinate (signed_at bytes.now)) }
{
    let (x, rest) = i32_at(bytes)?;
    only(is_coordinate(x), x, rest)
}

/// Reads an x and a y.
#[tactic(auto, unfolding(crate::specs::Fields::point_at))]
pub(crate) fn point_at(bytes: &[u8]) -> Field<'_, (i32, i32)>
    ensures { Reads (λ x. (x.0, x.1.now)) result (point_at bytes.now) }
{
    let (x, rest) = coordinate_at(bytes)?;
    let (y, rest) = coordinate_at(rest)?;
    Ok(((x, y), rest))
}

fn earliest_at(bytes: &[u8]) -> Field<'_, u32>
    ensures { Reads (λ x. (x.0, x.1.now)) result (only is_time (number_at 4 bytes.now)) }
{
    let (earliest, rest) = u32_at(bytes)?;
    only(earliest <= MAX_TIME, earliest, rest)
}

fn latest_at(earliest: u32, bytes: &[u8]) -> Field<'_, u32>
    ensures { Reads (λ x. (x.0, x.1.now)) result
        (only (λ t. nat_le earliest t && is_time t) (number_at 4 bytes.now)) }
{
    let (latest, rest) = u32_at(bytes)?;
    only(earliest <= latest && latest <= MAX_TIME, latest, rest)
}

/// Reads the begin and the end of a time window.
#[tactic(auto, unfolding(crate::specs::Fields::window_at))]
pub(crate) fn window_at(bytes: &[u8]) -> Field<'_, (u32, u32)>
    ensures { Reads (λ x. (x.0, x.1.now)) result (window_at bytes.now) }
{
    let (earliest, rest) = earliest_at(bytes)?;
    let (latest, rest) = latest_at(earliest, rest)?;
    Ok(((earliest, latest), rest))
}

/// Reads `count` times, adding each item to those read before. The count alone reserves no memory.
pub(crate) fn times<'a, A: Drop, F: Fn(A, &'a [u8]) -> Field<'a, A>>(
    count: u32,
    before: A,
    bytes: &'a [u8],
    more: F,
) -> Field<'a, A>
    requires { F.IsAlwaysCallable more }
    ensures { (next : A → List ℕ → Field A) → ReadsMore (F.post more) next
        → Gives (λ x. (x.0, x.1.now)) result (times next count before bytes.now) }
{
    let mut all = before;
    let mut rest = bytes;
    for _ in 0..count {
        (all, rest) = more(all, rest)?;
    }
    Ok((all, rest))
}
