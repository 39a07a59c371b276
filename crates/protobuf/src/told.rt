// What a refusal of a body, a writer of fields and the host's walk tell: the scope's number and the values beside it.
ghost use Rattle.std.specs.Prelude.{◌≡◌};
ghost use Rattle.protobuf.specs.Told.{wire_told, refusal_told, encoded_told, walk_told};

use super::{EncodeError, Refusal, Walked, WireError};
use basis::{Told, refusals};
use peer_id::told::told_varint;

pub fn told_wire(why: WireError) -> Told
    ensures { result ≡ wire_told why }
{
    match why {
        WireError::Varint { error, .. } => told_varint(error),
        WireError::FieldOverflow {
            offset,
            length,
            remaining,
        } => Told::three(
            refusals::FIELD_OVERFLOW,
            offset as u64,
            length,
            remaining as u64,
        ),
        WireError::UnsupportedWireType { wire_type, offset } => Told::two(
            refusals::UNSUPPORTED_WIRE_TYPE,
            wire_type as u64,
            offset as u64,
        ),
        WireError::InvalidFieldNumber { field, offset } => Told::two(
            refusals::INVALID_FIELD_NUMBER,
            field,
            offset as u64,
        ),
        WireError::InvalidUtf8 { offset } => Told::one(refusals::INVALID_UTF8, offset as u64),
        WireError::EndGroup => Told::none(refusals::END_GROUP),
        WireError::GroupDepth => Told::none(refusals::GROUP_DEPTH),
        WireError::GroupOpen => Told::none(refusals::GROUP_OPEN),
        WireError::TooLarge { len } => Told::one(refusals::TOO_LARGE, len as u64),
        WireError::TooManyRecords { records } => Told::one(
            refusals::TOO_MANY_RECORDS,
            records as u64,
        ),
    }
}

// With its place.
pub fn told_refusal(refusal: Refusal) -> Told
    ensures { result ≡ refusal_told refusal }
{
    told_wire(refusal.why).placed(refusal.spot)
}

pub fn told_encoded(answer: Result<usize, EncodeError>) -> Told
    ensures { result ≡ encoded_told answer }
{
    match answer {
        Ok(count) => Told::one(0, count as u64),
        Err(EncodeError::Room(needed)) => Told::one(refusals::SHORT_ROOM, needed as u64),
        Err(EncodeError::Refused(refusal)) => told_refusal(refusal),
    }
}

pub fn told_walk(answer: Result<Option<Walked>, Refusal>) -> Told
    ensures { result ≡ walk_told answer }
{
    match answer {
        Ok(None) => Told::one(0, 0),
        Ok(
            Some(
                Walked {
                    field,
                    wire_type,
                    tag_end,
                    next,
                },
            ),
        ) => Told::four(0, field, wire_type as u64, tag_end as u64, next.at as u64),
        Err(refusal) => told_refusal(refusal),
    }
}
