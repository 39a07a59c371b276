// What a writer of a message's bytes tells: how many: the scope's number and the values beside it.
ghost use Rattle.std.specs.Prelude.{◌≡◌};
ghost use Rattle.ids.specs.Told.{message_told};

use super::MessageError;
use basis::{Told, refusals};
use protobuf::told::told_refusal;

pub fn told_message(answer: Result<usize, MessageError>) -> Told
    ensures { result ≡ message_told answer }
{
    match answer {
        Ok(count) => Told::one(0, count as u64),
        Err(MessageError::Refused(refusal)) => told_refusal(refusal),
        Err(MessageError::NoMessage(count)) => Told::one(refusals::NO_MESSAGE, count as u64),
        Err(MessageError::MissingFrom) => Told::none(refusals::MISSING_FROM),
        Err(MessageError::InvalidFrom(len)) => Told::one(refusals::INVALID_FROM, len as u64),
        Err(MessageError::InvalidSeqno) => Told::none(refusals::INVALID_SEQNO),
        Err(MessageError::Room(needed)) => Told::one(refusals::SHORT_ROOM, needed as u64),
    }
}
