// What a varint's refusal and a peer id tell: the scope's number and the values beside it.
ghost use Rattle.std.specs.Prelude.{◌≡◌};
ghost use Rattle.peer_id.specs.Told.{varint_told, peer_id_told};

use super::{IDENTITY_MULTIHASH_CODE, PeerId, SHA256_MULTIHASH_CODE, VarintError};
use basis::{Told, refusals};

pub fn told_varint(why: VarintError) -> Told
    ensures { result ≡ varint_told why }
{
    match why {
        VarintError::BufferTooShort => Told::none(refusals::BUFFER_TOO_SHORT),
        VarintError::Overflow => Told::none(refusals::OVERFLOW),
        VarintError::NonCanonical => Told::none(refusals::NON_CANONICAL),
    }
}

pub fn told_peer_id(peer: Option<PeerId>) -> Told
    ensures { result ≡ peer_id_told peer }
{
    match peer {
        Some(PeerId::Identity) => Told::one(0, IDENTITY_MULTIHASH_CODE as u64),
        Some(PeerId::Sha256) => Told::one(0, SHA256_MULTIHASH_CODE as u64),
        None => Told::none(refusals::NOT_PEER_ID),
    }
}
