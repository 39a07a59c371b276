// What each call on a node tells: the scope's number and the values beside it.
ghost use Rattle.std.specs.Prelude.{◌≡◌};
ghost use Rattle.node.specs.Told.{admit_told, beat_told, advertise_told, offer_told, explain_told, ask_told, serve_told};

use super::{
    AdmitError, AdvertiseError, AskError, BeatError, ExplainError, Novelty, Reply, ServeError,
};
use admission::told::told_unfit;
use basis::{Told, refusals};
use mcache::Offer;
use protobuf::told::told_refusal;

pub fn told_admit(answer: Result<Novelty, AdmitError>) -> Told
    ensures { result ≡ admit_told answer }
{
    match answer {
        Ok(Novelty::New) => Told::one(0, 1),
        Ok(Novelty::Duplicate) => Told::one(0, 0),
        Err(AdmitError::Faulty(why)) => why.told(),
        Err(AdmitError::Refused(refusal)) => told_refusal(refusal),
        Err(AdmitError::NoMessage(count)) => Told::one(refusals::NO_MESSAGE, count as u64),
        Err(AdmitError::Unfit(why)) => told_unfit(why),
        Err(AdmitError::ClockBack(clock)) => Told::one(refusals::CLOCK_BACK, clock),
    }
}

pub fn told_beat(answer: Result<(), BeatError>) -> Told
    ensures { result ≡ beat_told answer }
{
    match answer {
        Ok(()) => Told::none(0),
        Err(BeatError::Faulty(why)) => why.told(),
        Err(BeatError::ClockBack(clock)) => Told::one(refusals::CLOCK_BACK, clock),
    }
}

pub fn told_advertise(answer: Result<usize, AdvertiseError>) -> Told
    ensures { result ≡ advertise_told answer }
{
    match answer {
        Ok(count) => Told::one(0, count as u64),
        Err(AdvertiseError::Faulty(why)) => why.told(),
        Err(AdvertiseError::TopicTooLong(len)) => Told::one(refusals::TOPIC_TOO_LONG, len as u64),
        Err(AdvertiseError::Room(needed)) => Told::one(refusals::SHORT_ROOM, needed as u64),
    }
}

// 0 where the id is listed, 1 where it is not cached, 2 where its message is without the topic, 3 in an older window, with its age.
pub fn told_offer(offer: Offer) -> Told
    ensures { result ≡ offer_told offer }
{
    match offer {
        Offer::Listed => Told::one(0, 0),
        Offer::NotCached => Told::one(0, 1),
        Offer::WithoutTopic => Told::one(0, 2),
        Offer::OlderWindow(age) => Told::two(0, 3, age as u64),
    }
}

pub fn told_explain(answer: Result<Offer, ExplainError>) -> Told
    ensures { result ≡ explain_told answer }
{
    match answer {
        Ok(offer) => told_offer(offer),
        Err(ExplainError::Faulty(why)) => why.told(),
        Err(ExplainError::TopicTooLong(len)) => Told::one(refusals::TOPIC_TOO_LONG, len as u64),
    }
}

pub fn told_ask(answer: Result<usize, AskError>) -> Told
    ensures { result ≡ ask_told answer }
{
    match answer {
        Ok(count) => Told::one(0, count as u64),
        Err(AskError::Faulty(why)) => why.told(),
        Err(AskError::Refused(refusal)) => told_refusal(refusal),
        Err(AskError::Room(needed)) => Told::one(refusals::SHORT_ROOM, needed as u64),
    }
}

pub fn told_serve(answer: Result<Reply, ServeError>) -> Told
    ensures { result ≡ serve_told answer }
{
    match answer {
        Ok(reply) => Told::three(
            0,
            reply.bytes as u64,
            reply.messages as u64,
            reply.left as u64,
        ),
        Err(ServeError::Faulty(why)) => why.told(),
        Err(ServeError::Refused(refusal)) => told_refusal(refusal),
        Err(ServeError::Room(needed)) => Told::one(refusals::SHORT_ROOM, needed as u64),
    }
}
