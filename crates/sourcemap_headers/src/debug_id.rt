//! Debug ids, which associate source maps with files.
ghost use Rattle.std.specs.Prelude.{◌≡◌};

use std::fmt;
use std::marker::Model;
use uuid::{Bytes, Uuid};

/// A UUID that associates a source map with its generated file. In contracts it is the list of its
/// sixteen bytes.
#[derive(Clone, Copy, PartialEq, Eq)]
pub struct DebugId {
    uuid: Uuid,
}

impl Model for DebugId {
    ghost use Rattle.std.specs.Prelude.{ℕ, List};
    ghost use Rattle.sourcemap_headers.specs.DebugId.{IsId};

    ghost Value = { List ℕ };

    ghost view = { λ id. id.uuid };

    ghost invariant = { λ id. IsId id.uuid };

    ghost inverse = { λ bytes. record { uuid = bytes } };
}

impl DebugId {
    ghost use Rattle.sourcemap_headers.specs.DebugId.{IsId, debug_id_of};

    /// Parses 32 hexadecimal digits in either case, alone or with the four hyphens of the form
    /// 8-4-4-4-12. `None` for any other text.
    pub fn parse(text: &str) -> Option<DebugId>
        ensures { result ≡ debug_id_of text.now }
    {
        if text.len() != 32 && text.len() != 36 {
            return None;
        }
        match Uuid::parse_str(text) {
            Ok(uuid) => Some(DebugId::from_uuid(uuid)),
            Err(_) => None,
        }
    }

    /// The debug id with the bytes of `uuid`.
    pub fn from_uuid(uuid: Uuid) -> DebugId
        ensures { result ≡ uuid }
    {
        check_bytes(&uuid.into_bytes());
        DebugId { uuid }
    }

    /// The UUID with the same bytes.
    pub fn uuid(self) -> Uuid
        ensures value { result ≡ self }
        ensures id { IsId result }
    {
        self.uuid
    }
}

impl fmt::Display for DebugId {
    ghost use Rattle.std.specs.Prelude.{Some};
    ghost use Rattle.sourcemap_headers.specs.DebugId.{debug_id_text};

    ghost output = { λ id. Some (debug_id_text id) };

    /// Writes the hyphenated form in lower case.
    fn fmt<W: fmt::Write>(&self, f: &mut fmt::Formatter<W>) -> fmt::Result {
        let uuid = self.uuid;
        write!(f, "{uuid}")
    }
}

impl fmt::Debug for DebugId {
    fn fmt<W: fmt::Write>(&self, f: &mut fmt::Formatter<W>) -> fmt::Result {
        write!(f, "DebugId({self})")
    }
}

ghost use Rattle.sourcemap_headers.specs.DebugId.{IsId};

// prover: array bytes in range (compiles to nothing)
#[inline]
fn check_bytes(bytes: &Bytes)
    ensures { IsId bytes.now }
{
    'bytes: for i in 0..16 {
        let _ = bytes[i];
    }
}
