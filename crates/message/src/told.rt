// What reading a body tells: how many records, and 1 where a control is there: the scope's number and the values beside it.
ghost use Rattle.std.specs.Prelude.{◌≡◌};
ghost use Rattle.message.specs.Told.{decoded_told};

use super::DecodeError;
use basis::{Told, refusals};
use protobuf::told::told_refusal;

pub fn told_decoded(answer: Result<(usize, bool), DecodeError>) -> Told
    ensures { result ≡ decoded_told answer }
{
    match answer {
        Ok((count, control)) => Told::two(0, count as u64, control as u64),
        Err(DecodeError::Refused(refusal)) => told_refusal(refusal),
        Err(DecodeError::Room(needed)) => Told::one(refusals::SHORT_ROOM, needed as u64),
    }
}
