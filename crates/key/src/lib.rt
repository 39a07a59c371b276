// Public keys, from key.rs: the protobuf around a key, its type and its data, in one fixed form.
#![tactic(auto)]

pub mod told;

ghost use Rattle.std.specs.Prelude.{◌≡◌, Ok};
ghost use Rattle.key.specs.Decode.{known, on_tag, on_total, on_data, decode_protobuf};
ghost use Rattle.key.specs.declared.PublicKeyError.TheVariants.{Varint};

use peer_id::{VarintError, read_uvarint};

pub const TYPE_TAG: u8 = 0x08;

pub const DATA_TAG: u8 = 0x12;

// Which key it is: 0 to 3.
#[derive(Clone, Copy)]
pub enum KeyType {
    Rsa = 0,
    Ed25519 = 1,
    Secp256k1 = 2,
    Ecdsa = 3,
}

#[derive(Clone, Copy)]
pub enum PublicKeyError {
    EmptyInput,
    InvalidFieldTag {
        expected: u8,
        found: Option<u8>,
    },
    Varint(VarintError),
    UnknownKeyType(u64),
    LengthOverflow,
    InvalidLength {
        expected_total: usize,
        actual_total: usize,
    },
}

impl From<VarintError> for PublicKeyError {
    ghost from_gives = { λ why error. error ≡ Varint why };

    fn from(why: VarintError) -> PublicKeyError {
        PublicKeyError::Varint(why)
    }
}

// A key's type, and where its data start in the input, whose end is theirs.
#[derive(Clone, Copy)]
pub struct PublicKey {
    pub key_type: KeyType,
    pub start: usize,
}

#[tactic(auto, unfolding(crate::specs::Decode::type_of))]
impl TryFrom<u64> for KeyType {
    type Error = PublicKeyError;

    ghost try_from_gives = { λ value key_type. key_type ≡ known value };

    fn try_from(value: u64) -> Result<KeyType, PublicKeyError> {
        match value {
            0 => Ok(KeyType::Rsa),
            1 => Ok(KeyType::Ed25519),
            2 => Ok(KeyType::Secp256k1),
            3 => Ok(KeyType::Ecdsa),
            _ => Err(PublicKeyError::UnknownKeyType(value)),
        }
    }
}

// Whether a field's tag stands at a place.
fn check_tag(input: &[u8], at: usize, expected: u8) -> Result<(), PublicKeyError>
    ensures { result ≡ on_tag input.now at expected (Ok tt) }
{
    match input.get(at).copied() {
        Some(b) if b == expected => Ok(()),
        found => Err(PublicKeyError::InvalidFieldTag { expected, found }),
    }
}

// Data of `size` bytes from `start` on, in an input of len bytes: they must end just there.
#[tactic(auto, unfolding(crate::specs::Decode::on_total))]
fn data_from(
    len: usize,
    key_type: KeyType,
    start: usize,
    size: u64,
) -> Result<PublicKey, PublicKeyError>
    ensures { result ≡ on_total len key_type start size }
{
    let total = start
        .checked_add(size as usize)
        .ok_or(PublicKeyError::LengthOverflow)?;
    if total != len {
        return Err(PublicKeyError::InvalidLength {
            expected_total: total,
            actual_total: len,
        });
    }
    Ok(PublicKey { key_type, start })
}

// The second field, at a place.
fn decode_data(input: &[u8], key_type: KeyType, at: usize) -> Result<PublicKey, PublicKeyError>
    ensures { result ≡ on_data input.now key_type at }
{
    check_tag(input, at, DATA_TAG)?;
    let next = at + 1;
    let (size, used) = read_uvarint(&input[next..])?;
    data_from(input.len(), key_type, next + used, size)
}

// The public key that some bytes are: type and data, in this order, and nothing else.
pub fn decode_protobuf(input: &[u8]) -> Result<PublicKey, PublicKeyError>
    ensures { result ≡ decode_protobuf input.now }
{
    if input.is_empty() {
        return Err(PublicKeyError::EmptyInput);
    }
    check_tag(input, 0, TYPE_TAG)?;
    let (value, used) = read_uvarint(&input[1..])?;
    let key_type = KeyType::try_from(value)?;
    decode_data(input, key_type, 1 + used)
}
