// What each call on the message cache tells: the scope's number and the values beside it.
ghost use Rattle.std.specs.Prelude.{◌≡◌};
ghost use Rattle.mcache.specs.Told.{put_told, lookup_told, gossip_told};

use super::{GossipError, Kept, PutError};
use admission::told::told_unfit;
use basis::{Fault, Told, refusals};
use protobuf::told::told_refusal;

pub fn told_put(answer: Result<Kept, PutError>) -> Told
    ensures { result ≡ put_told answer }
{
    match answer {
        Ok(Kept::Stored) => Told::one(0, 1),
        Ok(Kept::Held) => Told::one(0, 0),
        Err(PutError::Faulty(why)) => why.told(),
        Err(PutError::Refused(refusal)) => told_refusal(refusal),
        Err(PutError::NoMessage(count)) => Told::one(refusals::NO_MESSAGE, count as u64),
        Err(PutError::Unfit(why)) => told_unfit(why),
    }
}

pub fn told_lookup(answer: Result<bool, Fault>) -> Told
    ensures { result ≡ lookup_told answer }
{
    match answer {
        Ok(found) => Told::one(0, found as u64),
        Err(why) => why.told(),
    }
}

pub fn told_gossip(answer: Result<(), GossipError>) -> Told
    ensures { result ≡ gossip_told answer }
{
    match answer {
        Ok(()) => Told::none(0),
        Err(GossipError::Faulty(why)) => why.told(),
        Err(GossipError::TopicTooLong(len)) => Told::one(refusals::TOPIC_TOO_LONG, len as u64),
    }
}
