//! [`Handshake`], a message whose body fills its length.
ghost use Rattle.std.specs.Prelude.{◌≡◌};
ghost use Rattle.handshake_by_hand.specs.Handshakes.{handshake_format, handshake_meets, handshake_plain};

use crate::certificate_verify::CertificateVerify;
use crate::key_update_request::KeyUpdateRequest;
use std::alloc::Global;
use std::marker::PhantomData;
use tls_codec::{
    ByRef, Deserialize, DeserializeBytes, Error, Serialize, Sink, Size, Source, TlsByteVecU24, U24,
};
use tls_codec_cases::{Case, Else, Enclosed, Or, Other, Tagged, append_as, write_as};

/// `Handshake` (RFC 8446, section 4): `HandshakeType msg_type`, `uint24 length`, and the body that the type selects. A body of
/// another type is kept as bytes.
#[derive(PartialEq, Drop)]
pub enum Handshake {
    /// `case end_of_early_data: EndOfEarlyData;`
    EndOfEarlyData,
    /// `case certificate_verify: CertificateVerify;`
    CertificateVerify(CertificateVerify),
    /// `case finished: Finished;`, whose `opaque verify_data[Hash.length]` fills the length.
    Finished(TlsByteVecU24),
    /// `case key_update: KeyUpdate;`
    KeyUpdate(KeyUpdateRequest),
    /// Any other type and its body, as `certificate`, which the certificate type decides.
    Unknown(UnknownHandshake),
}

type KnownHandshakes = Or<
    Or<Case<5, Enclosed<U24, ()>>, Case<15, Enclosed<U24, CertificateVerify>>>,
    Or<Case<20, TlsByteVecU24>, Case<24, Enclosed<U24, KeyUpdateRequest>>>,
>;

/// A message of a type without a variant of its own.
pub type UnknownHandshake = Other<KnownHandshakes, u8, TlsByteVecU24>;

type Handshakes = Tagged<u8, Else<KnownHandshakes, u8, TlsByteVecU24>>;

type BorrowedKnown<'a> = Or<
    Or<Case<5, Enclosed<U24, ()>>, Case<15, Enclosed<U24, ByRef<'a, CertificateVerify>>>>,
    Or<Case<20, ByRef<'a, TlsByteVecU24>>, Case<24, Enclosed<U24, ByRef<'a, KeyUpdateRequest>>>>,
>;

type BorrowedHandshakes<'a> = Tagged<u8, Else<BorrowedKnown<'a>, u8, ByRef<'a, TlsByteVecU24>>>;

impl Handshake {
    fn cases(&self) -> BorrowedHandshakes<'_>
        ensures { ⟦<BorrowedHandshakes<'static> as Size>⟧.plain result
            ≡ handshake_plain self.now }
    {
        let cases = match self {
            Handshake::EndOfEarlyData => {
                Else::Known(Or::First(Or::First(Case(Enclosed((), PhantomData)))))
            }
            Handshake::CertificateVerify(body) => {
                Else::Known(Or::First(Or::Second(Case(Enclosed(ByRef(body), PhantomData)))))
            }
            Handshake::Finished(verify_data) => {
                Else::Known(Or::Second(Or::First(Case(ByRef(verify_data)))))
            }
            Handshake::KeyUpdate(request) => {
                Else::Known(Or::Second(Or::Second(Case(Enclosed(ByRef(request), PhantomData)))))
            }
            Handshake::Unknown(other) => Else::Unknown(other.by_ref()),
        };
        Tagged(cases, PhantomData)
    }

    fn of(cases: Handshakes) -> Handshake
        ensures { handshake_plain result ≡ ⟦<Handshakes as Size>⟧.plain cases }
    {
        match cases.0 {
            Else::Known(Or::First(Or::First(_))) => Handshake::EndOfEarlyData,
            Else::Known(Or::First(Or::Second(body))) => Handshake::CertificateVerify(body.0.0),
            Else::Known(Or::Second(Or::First(verify_data))) => Handshake::Finished(verify_data.0),
            Else::Known(Or::Second(Or::Second(request))) => Handshake::KeyUpdate(request.0.0),
            Else::Unknown(other) => Handshake::Unknown(other),
        }
    }
}

impl Size for Handshake {
    ghost plain = { handshake_plain };

    ghost format = { handshake_format };

    fn tls_serialized_len(&self) -> usize {
        self.cases().tls_serialized_len()
    }

    ghost lawful = { handshake_meets };
}

impl Serialize for Handshake {
    fn tls_serialize<W: Sink>(&self, writer: &mut W) -> Result<usize, Error> {
        write_as(self, &self.cases(), writer)
    }

    fn tls_serialize_into(&self, out: &mut Vec<u8>) -> Result<usize, Error> {
        append_as(self, &self.cases(), out)
    }
}

impl Deserialize for Handshake {
    ghost names = { ⟦<Handshakes as Deserialize>⟧.names };

    /// `TrailingData`: the body ends before its length does. Every other error is that of a field.
    fn tls_deserialize<R: Source>(alloc: Global, src: &mut R) -> Result<Handshake, Error> {
        let cases = <Handshakes>::tls_deserialize(alloc, src)?;
        Ok(Handshake::of(cases))
    }
}

impl DeserializeBytes for Handshake {
    ghost names = { ⟦<Handshakes as DeserializeBytes>⟧.names };

    /// `TrailingData`: the body ends before its length does. Every other error is that of a field.
    fn tls_deserialize_bytes(alloc: Global, whole: &[u8]) -> Result<(Handshake, &[u8]), Error> {
        let (cases, rest) = <Handshakes>::tls_deserialize_bytes(alloc, whole)?;
        Ok((Handshake::of(cases), rest))
    }
}
