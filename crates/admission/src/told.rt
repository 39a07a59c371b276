// What a message that is not taken tells: the scope's number and the values beside it.
ghost use Rattle.std.specs.Prelude.{◌≡◌};
ghost use Rattle.admission.specs.Told.{unfit_told};

use super::Unfit;
use basis::{Told, refusals};

pub fn told_unfit(why: Unfit) -> Told
    ensures { result ≡ unfit_told why }
{
    match why {
        Unfit::MissingFrom => Told::none(refusals::MISSING_FROM),
        Unfit::InvalidFrom(len) => Told::one(refusals::INVALID_FROM, len as u64),
        Unfit::NotPeerId => Told::none(refusals::NOT_PEER_ID),
        Unfit::InvalidSeqno => Told::none(refusals::INVALID_SEQNO),
        Unfit::KeyWithoutSignature => Told::none(refusals::KEY_WITHOUT_SIGNATURE),
        Unfit::MissingSignature => Told::none(refusals::MISSING_SIGNATURE),
        Unfit::InvalidSignatureLength(len) => Told::one(
            refusals::INVALID_SIGNATURE_LENGTH,
            len as u64,
        ),
        Unfit::InvalidKey => Told::none(refusals::INVALID_KEY),
        Unfit::KeyPeerIdMismatch => Told::none(refusals::KEY_MISMATCH),
        Unfit::SignatureInvalid => Told::none(refusals::SIGNATURE_INVALID),
        Unfit::TopicCount(count) => Told::one(refusals::TOPIC_COUNT, count as u64),
        Unfit::TopicTooLong(len) => Told::one(refusals::TOPIC_TOO_LONG, len as u64),
        Unfit::MessageTooLong(len) => Told::one(refusals::MESSAGE_TOO_LONG, len as u64),
    }
}
