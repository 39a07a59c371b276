// What reading a key tells: the scope's number and the values beside it.
ghost use Rattle.std.specs.Prelude.{◌≡◌};
ghost use Rattle.key.specs.Key.{code_of};
ghost use Rattle.key.specs.Told.{key_told};

use super::{KeyType, PublicKey, PublicKeyError};
use basis::{Told, refusals};

// The number of a key's type.
pub fn code_of(key_type: KeyType) -> u64
    ensures { result ≡ code_of key_type }
{
    key_type as u64
}

pub fn told_key(key: Result<PublicKey, PublicKeyError>) -> Told
    ensures { result ≡ key_told key }
{
    match key {
        Ok(PublicKey { key_type, start }) => Told::two(0, code_of(key_type), start as u64),
        Err(_) => Told::none(refusals::INVALID_KEY),
    }
}
