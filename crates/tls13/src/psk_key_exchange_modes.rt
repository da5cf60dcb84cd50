//! [`PskKeyExchangeModes`].
ghost use Rattle.std.specs.Prelude.{◌≡◌};
ghost use Rattle.tls13.specs.PskKeyExchangeModes.{psk_key_exchange_modes_format, psk_key_exchange_modes_meets, psk_key_exchange_modes_plain};
ghost use Rattle.tls13.specs.declared.psk_key_exchange_modes.PskKeyExchangeModes.{PskKeyExchangeModes};

use crate::PskKeyExchangeMode;
use std::alloc::Global;
use tls_codec::{
    Deserialize, DeserializeBytes, Error, Serialize, Sink, Size, Source, TlsVec, Within,
};
use tls_codec_cases::append_as;
use tls_codec_validate::{Rejected, Validate};
use tls_codec_views::{Encoded, Parted};

/// `PskKeyExchangeModes` (RFC 8446, appendix B.3.1).
#[derive(PartialEq, Eq, Debug, Clone, Drop)]
pub struct PskKeyExchangeModes {
    /// `PskKeyExchangeMode ke_modes<1..2^8-1>;`
    pub ke_modes: TlsVec<Within<u8, 1, 255>, PskKeyExchangeMode>,
}

type Parts = TlsVec<Within<u8, 1, 255>, PskKeyExchangeMode>;

impl Size for PskKeyExchangeModes {
    ghost plain = { psk_key_exchange_modes_plain };

    ghost format = { psk_key_exchange_modes_format };

    fn tls_serialized_len(&self) -> usize {
        self.ke_modes.tls_serialized_len()
    }

    ghost lawful = { psk_key_exchange_modes_meets };
}

impl Serialize for PskKeyExchangeModes {
    fn tls_serialize<W: Sink>(&self, writer: &mut W) -> Result<usize, Error> {
        self.ke_modes.tls_serialize(writer)
    }

    fn tls_serialize_into(&self, out: &mut Vec<u8>) -> Result<usize, Error> {
        append_as(self, &self.ke_modes, out)
    }
}

impl Deserialize for PskKeyExchangeModes {
    ghost names = { ⟦<Parts as Deserialize>⟧.names };

    fn tls_deserialize<R: Source>(
        alloc: Global,
        src: &mut R,
    ) -> Result<PskKeyExchangeModes, Error> {
        let ke_modes = <Parts>::tls_deserialize(alloc, src)?;
        Ok(PskKeyExchangeModes { ke_modes })
    }
}

impl DeserializeBytes for PskKeyExchangeModes {
    ghost names = { ⟦<Parts as DeserializeBytes>⟧.names };

    fn tls_deserialize_bytes(
        alloc: Global,
        whole: &[u8],
    ) -> Result<(PskKeyExchangeModes, &[u8]), Error> {
        let (ke_modes, rest) = <Parts>::tls_deserialize_bytes(alloc, whole)?;
        Ok((PskKeyExchangeModes { ke_modes }, rest))
    }
}

impl Validate for PskKeyExchangeModes {
    ghost places = { ⟦<Parts as Validate>⟧.places };

    fn tls_validate_prefix(whole: &[u8]) -> Result<&[u8], Rejected<'_>> {
        <Parts>::tls_validate_prefix(whole)
    }

    fn tls_width() -> Option<usize> {
        <Parts>::tls_width()
    }
}

impl Parted for PskKeyExchangeModes {
    type Parts = Box<Parts>;

    ghost as_parts = { λ bytes is. is };
}

/// The encoding of a [`PskKeyExchangeModes`], split into its fields.
#[derive(Drop)]
pub struct PskKeyExchangeModesView<'a> {
    /// `PskKeyExchangeMode ke_modes<1..2^8-1>;`
    pub ke_modes: Encoded<'a, TlsVec<Within<u8, 1, 255>, PskKeyExchangeMode>>,
}

impl<'a> From<Encoded<'a, PskKeyExchangeModes>> for PskKeyExchangeModesView<'a> {
    ghost from_gives = { λ whole view. whole ≡ view.ke_modes };

    fn from(whole: Encoded<'a, PskKeyExchangeModes>) -> PskKeyExchangeModesView<'a> {
        let ke_modes = whole.parts().payload();
        PskKeyExchangeModesView { ke_modes }
    }
}

/// Two values are equal if and only if all their fields are equal.
pub fn is_compared_by_its_fields()
    ensures { (x y : PskKeyExchangeModes) →
        ⟦<PskKeyExchangeModes as PartialEq>⟧.eq x y
        ≡ ⟦<TlsVec<Within<u8, 1, 255>, PskKeyExchangeMode> as PartialEq>⟧.eq x.ke_modes y.ke_modes }
{}
