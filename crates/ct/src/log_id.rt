//! [`LogID`].
ghost use Rattle.std.specs.Prelude.{◌≡◌};
ghost use Rattle.ct.specs.LogID.{log_id_format, log_id_meets, log_id_plain};
ghost use Rattle.ct.specs.declared.log_id.LogID.{LogID};

use std::alloc::Global;
use tls_codec::{Deserialize, DeserializeBytes, Error, Serialize, Sink, Size, Source};
use tls_codec_cases::append_as;
use tls_codec_validate::{Rejected, Validate};
use tls_codec_views::{Encoded, Parted};

/// `LogID` (RFC 6962, section 3.2).
#[derive(PartialEq, Eq, Debug, Clone, Drop)]
pub struct LogID {
    /// `opaque key_id[32];`
    pub key_id: [u8; 32],
}

impl Size for LogID {
    ghost plain = { log_id_plain };

    ghost format = { log_id_format };

    fn tls_serialized_len(&self) -> usize {
        self.key_id.tls_serialized_len()
    }

    ghost lawful = { log_id_meets };
}

impl Serialize for LogID {
    fn tls_serialize<W: Sink>(&self, writer: &mut W) -> Result<usize, Error> {
        self.key_id.tls_serialize(writer)
    }

    fn tls_serialize_into(&self, out: &mut Vec<u8>) -> Result<usize, Error> {
        append_as(self, &self.key_id, out)
    }
}

impl Deserialize for LogID {
    ghost names = { ⟦<[u8; 32] as Deserialize>⟧.names };

    fn tls_deserialize<R: Source>(alloc: Global, src: &mut R) -> Result<LogID, Error> {
        let key_id = <[u8; 32]>::tls_deserialize(alloc, src)?;
        Ok(LogID { key_id })
    }
}

impl DeserializeBytes for LogID {
    ghost names = { ⟦<[u8; 32] as DeserializeBytes>⟧.names };

    fn tls_deserialize_bytes(alloc: Global, whole: &[u8]) -> Result<(LogID, &[u8]), Error> {
        let (key_id, rest) = <[u8; 32]>::tls_deserialize_bytes(alloc, whole)?;
        Ok((LogID { key_id }, rest))
    }
}

impl Validate for LogID {
    ghost places = { ⟦<[u8; 32] as Validate>⟧.places };

    fn tls_validate_prefix(whole: &[u8]) -> Result<&[u8], Rejected<'_>> {
        <[u8; 32]>::tls_validate_prefix(whole)
    }

    fn tls_width() -> Option<usize> {
        <[u8; 32]>::tls_width()
    }
}

impl Parted for LogID {
    type Parts = [u8; 32];

    ghost as_parts = { λ bytes is. is };
}

/// The encoding of a [`LogID`], split into its fields.
#[derive(Drop)]
pub struct LogIDView<'a> {
    /// `opaque key_id[32];`
    pub key_id: Encoded<'a, [u8; 32]>,
}

impl<'a> From<Encoded<'a, LogID>> for LogIDView<'a> {
    ghost from_gives = { λ whole view. whole ≡ view.key_id };

    fn from(whole: Encoded<'a, LogID>) -> LogIDView<'a> {
        let key_id = whole.parts();
        LogIDView { key_id }
    }
}

/// Two values are equal if and only if all their fields are equal.
pub fn is_compared_by_its_fields()
    ensures { (x y : LogID) →
        ⟦<LogID as PartialEq>⟧.eq x y
        ≡ ⟦<[u8; 32] as PartialEq>⟧.eq x.key_id y.key_id }
{}
