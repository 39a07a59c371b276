// What each call on the seen cache tells: the scope's number and the values beside it.
ghost use Rattle.std.specs.Prelude.{◌≡◌};
ghost use Rattle.seen.specs.Told.{error_told, insert_told, contains_told, gc_told, next_told};

use super::{Entry, SeenError};
use basis::{Fault, Told, refusals};

fn told_error(error: SeenError) -> Told
    ensures { result ≡ error_told error }
{
    match error {
        SeenError::Fault(fault) => fault.told(),
        SeenError::TooLong(len) => Told::one(refusals::TOO_LONG_ID, len as u64),
    }
}

pub fn told_insert(answer: Result<Entry, SeenError>) -> Told
    ensures { result ≡ insert_told answer }
{
    match answer {
        Ok(Entry::Fresh) => Told::one(0, 1),
        Ok(Entry::Held) => Told::one(0, 0),
        Err(error) => told_error(error),
    }
}

pub fn told_contains(answer: Result<bool, SeenError>) -> Told
    ensures { result ≡ contains_told answer }
{
    match answer {
        Ok(held) => Told::one(0, held as u64),
        Err(error) => told_error(error),
    }
}

pub fn told_gc(answer: Result<usize, Fault>) -> Told
    ensures { result ≡ gc_told answer }
{
    match answer {
        Ok(count) => Told::one(0, count as u64),
        Err(fault) => fault.told(),
    }
}

pub fn told_next(answer: Result<Option<u64>, Fault>) -> Told
    ensures { result ≡ next_told answer }
{
    match answer {
        Ok(None) => Told::none(0),
        Ok(Some(expiry)) => Told::one(0, expiry),
        Err(fault) => fault.told(),
    }
}
