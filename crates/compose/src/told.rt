// What the calls tell: the scope's number and the values beside it.
ghost use Rattle.std.specs.Prelude.{◌≡◌};
ghost use Rattle.compose.specs.Told.{wrong_told, composed_told};

use super::{ComposeError, Wrong};
use admission::told::told_unfit;
use basis::{Told, refusals};

pub fn told_wrong(why: Wrong) -> Told
    ensures { result ≡ wrong_told why }
{
    match why {
        Wrong::BadSetting => Told::none(refusals::BAD_SETTING),
        Wrong::NotLent => Told::none(refusals::MALFORMED),
        Wrong::InvalidUtf8(start) => Told::one(refusals::INVALID_UTF8, start as u64),
        Wrong::TooManyRecords(records) => Told::one(refusals::TOO_MANY_RECORDS, records as u64),
        Wrong::NoMessage(count) => Told::one(refusals::NO_MESSAGE, count as u64),
        Wrong::Unfit(unfit) => told_unfit(unfit),
        Wrong::TooLong(len) => Told::one(refusals::RPC_TOO_LONG, len as u64),
    }
}

pub fn told_composed(c: Result<usize, ComposeError>) -> Told
    ensures { result ≡ composed_told c }
{
    match c {
        Ok(count) => Told::one(0, count as u64),
        Err(ComposeError::Refused(why)) => told_wrong(why),
        Err(ComposeError::Room(needed)) => Told::one(refusals::SHORT_ROOM, needed as u64),
    }
}
