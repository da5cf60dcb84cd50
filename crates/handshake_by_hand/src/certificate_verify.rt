//! [`CertificateVerify`], the signature over the handshake.
ghost use Rattle.handshake_by_hand.specs.Bodies.{certificate_verify_format, certificate_verify_meets, certificate_verify_plain};

use std::alloc::Global;
use tls_codec::{
    ByRef, Deserialize, DeserializeBytes, Error, Serialize, Sink, Size, Source, TlsByteVecU16,
};

/// `CertificateVerify` (RFC 8446, section 4.4.3).
#[derive(PartialEq, Eq, Debug, Clone, Drop)]
pub struct CertificateVerify {
    /// `SignatureScheme algorithm;`
    pub algorithm: u16,
    /// `opaque signature<0..2^16-1>;`
    pub signature: TlsByteVecU16,
}

impl Size for CertificateVerify {
    ghost plain = { certificate_verify_plain };

    ghost format = { certificate_verify_format };

    fn tls_serialized_len(&self) -> usize {
        (ByRef(&self.algorithm), ByRef(&self.signature)).tls_serialized_len()
    }

    ghost lawful = { certificate_verify_meets };
}

impl Serialize for CertificateVerify {
    fn tls_serialize<W: Sink>(&self, writer: &mut W) -> Result<usize, Error> {
        (ByRef(&self.algorithm), ByRef(&self.signature)).tls_serialize(writer)
    }

    fn tls_serialize_into(&self, out: &mut Vec<u8>) -> Result<usize, Error> {
        (ByRef(&self.algorithm), ByRef(&self.signature)).tls_serialize_into(out)
    }
}

impl Deserialize for CertificateVerify {
    ghost names = { ⟦<(u16, TlsByteVecU16) as Deserialize>⟧.names };

    fn tls_deserialize<R: Source>(alloc: Global, src: &mut R) -> Result<CertificateVerify, Error> {
        let (algorithm, signature) = <(u16, TlsByteVecU16)>::tls_deserialize(alloc, src)?;
        Ok(CertificateVerify {
            algorithm,
            signature,
        })
    }
}

impl DeserializeBytes for CertificateVerify {
    ghost names = { ⟦<(u16, TlsByteVecU16) as DeserializeBytes>⟧.names };

    fn tls_deserialize_bytes(
        alloc: Global,
        whole: &[u8],
    ) -> Result<(CertificateVerify, &[u8]), Error> {
        let ((algorithm, signature), rest) = <(u16, TlsByteVecU16)>::tls_deserialize_bytes(
            alloc, whole,
        )?;
        let body = CertificateVerify {
            algorithm,
            signature,
        };
        Ok((body, rest))
    }
}
