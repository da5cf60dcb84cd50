//! [`SignatureSchemeList`].
ghost use Rattle.std.specs.Prelude.{◌≡◌};
ghost use Rattle.tls13.specs.SignatureSchemeList.{signature_scheme_list_format, signature_scheme_list_meets, signature_scheme_list_plain};
ghost use Rattle.tls13.specs.declared.signature_scheme_list.SignatureSchemeList.{SignatureSchemeList};

use crate::SignatureScheme;
use std::alloc::Global;
use tls_codec::{
    Deserialize, DeserializeBytes, Error, Serialize, Sink, Size, Source, TlsVec, Within,
};
use tls_codec_cases::append_as;
use tls_codec_validate::{Rejected, Validate};
use tls_codec_views::{Encoded, Parted};

/// `SignatureSchemeList` (RFC 8446, appendix B.3.1.3).
#[derive(PartialEq, Eq, Debug, Clone, Drop)]
pub struct SignatureSchemeList {
    /// `SignatureScheme supported_signature_algorithms<2..65534>;`
    pub supported_signature_algorithms: TlsVec<Within<u16, 2, 65534>, SignatureScheme>,
}

type Parts = TlsVec<Within<u16, 2, 65534>, SignatureScheme>;

impl Size for SignatureSchemeList {
    ghost plain = { signature_scheme_list_plain };

    ghost format = { signature_scheme_list_format };

    fn tls_serialized_len(&self) -> usize {
        self.supported_signature_algorithms.tls_serialized_len()
    }

    ghost lawful = { signature_scheme_list_meets };
}

impl Serialize for SignatureSchemeList {
    fn tls_serialize<W: Sink>(&self, writer: &mut W) -> Result<usize, Error> {
        self.supported_signature_algorithms.tls_serialize(writer)
    }

    fn tls_serialize_into(&self, out: &mut Vec<u8>) -> Result<usize, Error> {
        append_as(self, &self.supported_signature_algorithms, out)
    }
}

impl Deserialize for SignatureSchemeList {
    ghost names = { ⟦<Parts as Deserialize>⟧.names };

    fn tls_deserialize<R: Source>(
        alloc: Global,
        src: &mut R,
    ) -> Result<SignatureSchemeList, Error> {
        let supported_signature_algorithms = <Parts>::tls_deserialize(alloc, src)?;
        Ok(SignatureSchemeList {
            supported_signature_algorithms,
        })
    }
}

impl DeserializeBytes for SignatureSchemeList {
    ghost names = { ⟦<Parts as DeserializeBytes>⟧.names };

    fn tls_deserialize_bytes(
        alloc: Global,
        whole: &[u8],
    ) -> Result<(SignatureSchemeList, &[u8]), Error> {
        let (supported_signature_algorithms, rest) = <Parts>::tls_deserialize_bytes(alloc, whole)?;
        Ok((
            SignatureSchemeList {
                supported_signature_algorithms,
            },
            rest,
        ))
    }
}

impl Validate for SignatureSchemeList {
    ghost places = { ⟦<Parts as Validate>⟧.places };

    fn tls_validate_prefix(whole: &[u8]) -> Result<&[u8], Rejected<'_>> {
        <Parts>::tls_validate_prefix(whole)
    }

    fn tls_width() -> Option<usize> {
        <Parts>::tls_width()
    }
}

impl Parted for SignatureSchemeList {
    type Parts = Box<Parts>;

    ghost as_parts = { λ bytes is. is };
}

/// The encoding of a [`SignatureSchemeList`], split into its fields.
#[derive(Drop)]
pub struct SignatureSchemeListView<'a> {
    /// `SignatureScheme supported_signature_algorithms<2..65534>;`
    pub supported_signature_algorithms: Encoded<'a, TlsVec<Within<u16, 2, 65534>, SignatureScheme>>,
}

impl<'a> From<Encoded<'a, SignatureSchemeList>> for SignatureSchemeListView<'a> {
    ghost from_gives = { λ whole view. whole ≡ view.supported_signature_algorithms };

    fn from(whole: Encoded<'a, SignatureSchemeList>) -> SignatureSchemeListView<'a> {
        let supported_signature_algorithms = whole.parts().payload();
        SignatureSchemeListView {
            supported_signature_algorithms,
        }
    }
}

/// Two values are equal if and only if all their fields are equal.
pub fn is_compared_by_its_fields()
    ensures { (x y : SignatureSchemeList) →
        ⟦<SignatureSchemeList as PartialEq>⟧.eq x y
        ≡ ⟦<TlsVec<Within<u16, 2, 65534>, SignatureScheme> as PartialEq>⟧.eq
        x.supported_signature_algorithms y.supported_signature_algorithms }
{}
