// A reader that holds a body, a place in it and the mode, from which the host reads one top-level field after the other. A step's work is the
// cursor's.
#![tactic(auto)]

ghost use Rattle.std.specs.Prelude.{◌≡◌};
ghost use Rattle.protobuf.specs.Field.{walk_step};

use basis::Mode;
use protobuf::{Cursor, Refusal, Walked};

#[derive(Clone, Copy)]
pub struct Reader<'a> {
    pub body: &'a [u8],
    pub at: usize,
    pub mode: Mode,
}

impl<'a> Reader<'a> {
    // A reader at the start of a body.
    pub fn new(body: &'a [u8], mode: Mode) -> Reader<'a>
        ensures { result ≡ record { body = body.entry; at = 0; mode = mode } }
    {
        Reader { body, at: 0, mode }
    }

    // The field at the reader's place.
    pub fn step(self) -> Result<Option<Walked>, Refusal>
        ensures { result ≡ walk_step self.entry.mode self.entry.body.now self.entry.at }
    {
        Cursor { at: self.at }.step(self.mode, self.body)
    }

    // The reader at another place of its body, where a step's `next` says.
    pub fn moved(self, next: Cursor) -> Reader<'a>
        ensures { result ≡ record { body = self.entry.body; at = next.at; mode = self.entry.mode } }
    {
        Reader {
            at: next.at,
            ..self
        }
    }
}

// The field at a place of a body, for callers that hold no reader.
pub fn walk(mode: Mode, body: &[u8], at: usize) -> Result<Option<Walked>, Refusal>
    ensures { result ≡ walk_step mode body.now at }
{
    Reader { body, at, mode }.step()
}
