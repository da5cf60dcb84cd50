//! [`SupportedVersions`].
ghost use Rattle.std.specs.Prelude.{◌≡◌, IsTrue};
ghost use Rattle.tls13.specs.SupportedVersions.{supported_versions_format_for, supported_versions_meets_for, supported_versions_plain, supported_versions_tag, supported_versions_variants};
ghost use Rattle.tls13.specs.declared.supported_versions.SupportedVersions.{SupportedVersions};

use crate::{HandshakeType, ProtocolVersion};
use std::alloc::Global;
use tls_codec::{
    ByRef, DeserializeBytesFor, DeserializeFor, Error, SerializeFor, Sink, SizeFor, Source, TlsVec,
    Within,
};
use tls_codec_cases::{Case, Chosen, Or, append_as_for, write_as_for};
use tls_codec_validate::{Rejected, ValidateFor};
use tls_codec_views::ChoiceFor;

/// `select (msg_type)` of `SupportedVersions` (RFC 8446, appendix B.3.1.1): its bytes don't
/// have the tag.
#[derive(PartialEq, Eq, Debug, Clone, Drop)]
pub enum SupportedVersions {
    /// `case client_hello: ProtocolVersion versions<2..254>;`
    ClientHello(TlsVec<Within<u8, 2, 254>, ProtocolVersion>),
    /// `case server_hello: ProtocolVersion selected_version;`
    ServerHello(ProtocolVersion),
}

type Cases = Chosen<
    Or<Case<1, TlsVec<Within<u8, 2, 254>, ProtocolVersion>>, Case<2, ProtocolVersion>>,
>;

type ByRefCases<'a> = Chosen<
    Or<
        Case<1, ByRef<'a, TlsVec<Within<u8, 2, 254>, ProtocolVersion>>>,
        Case<2, ByRef<'a, ProtocolVersion>>,
    >,
>;

impl SupportedVersions {
    fn cases(&self) -> ByRefCases<'_>
        ensures { ⟦<ByRefCases<'static> as SizeFor<HandshakeType>>⟧.plain result
            ≡ supported_versions_plain self.now }
    {
        let cases = match self {
            SupportedVersions::ClientHello(versions) => Or::First(Case(ByRef(versions))),
            SupportedVersions::ServerHello(selected_version) => Or::Second(Case(ByRef(
                selected_version,
            ))),
        };
        Chosen(cases)
    }

    fn of(cases: Cases) -> SupportedVersions
        ensures { supported_versions_plain result ≡ ⟦<Cases as SizeFor<HandshakeType>>⟧.plain
            cases }
    {
        match cases.0 {
            Or::First(case) => SupportedVersions::ClientHello(case.0),
            Or::Second(case) => SupportedVersions::ServerHello(case.0),
        }
    }
}

impl SizeFor<HandshakeType> for SupportedVersions {
    ghost plain = { supported_versions_plain };

    ghost format_for = { supported_versions_format_for };

    fn tls_serialized_len_for(&self, msg_type: &HandshakeType) -> usize {
        self.cases().tls_serialized_len_for(msg_type)
    }

    ghost lawful = { supported_versions_meets_for };
}

/// `EncodingError("value does not fit its context")`: the value's case is for another tag.
impl SerializeFor<HandshakeType> for SupportedVersions {
    fn tls_serialize_for<W: Sink>(
        &self,
        msg_type: &HandshakeType,
        writer: &mut W,
    ) -> Result<usize, Error> {
        write_as_for(self, &self.cases(), msg_type, writer)
    }

    fn tls_serialize_into_for(
        &self,
        msg_type: &HandshakeType,
        out: &mut Vec<u8>,
    ) -> Result<usize, Error> {
        append_as_for(self, &self.cases(), msg_type, out)
    }
}

impl DeserializeFor<HandshakeType> for SupportedVersions {
    ghost names = { ⟦<Cases as DeserializeFor<HandshakeType>>⟧.names };

    /// `UnknownValue`: no case has the context's tag.
    fn tls_deserialize_for<R: Source>(
        msg_type: &HandshakeType,
        alloc: Global,
        src: &mut R,
    ) -> Result<SupportedVersions, Error> {
        let cases = <Cases>::tls_deserialize_for(msg_type, alloc, src)?;
        Ok(SupportedVersions::of(cases))
    }
}

impl DeserializeBytesFor<HandshakeType> for SupportedVersions {
    ghost names = { ⟦<Cases as DeserializeBytesFor<HandshakeType>>⟧.names };

    /// `UnknownValue`: no case has the context's tag.
    fn tls_deserialize_bytes_for<'a>(
        msg_type: &HandshakeType,
        alloc: Global,
        whole: &'a [u8],
    ) -> Result<(SupportedVersions, &'a [u8]), Error> {
        let (cases, rest) = <Cases>::tls_deserialize_bytes_for(msg_type, alloc, whole)?;
        Ok((SupportedVersions::of(cases), rest))
    }
}

impl ValidateFor<HandshakeType> for SupportedVersions {
    ghost places = { ⟦<Cases as ValidateFor<HandshakeType>>⟧.places };

    fn tls_validate_prefix_for<'a>(key: &u64, whole: &'a [u8]) -> Result<&'a [u8], Rejected<'a>> {
        <Cases as ValidateFor<HandshakeType>>::tls_validate_prefix_for(key, whole)
    }
}

impl ChoiceFor<HandshakeType> for SupportedVersions {
    ghost variants = { supported_versions_variants };

    ghost as_choice = { λ c bytes is. is };
}

/// The case `client_hello` with this content.
impl From<TlsVec<Within<u8, 2, 254>, ProtocolVersion>> for SupportedVersions {
    ghost from_gives = { λ content value. value ≡ SupportedVersions.ClientHello content };

    fn from(content: TlsVec<Within<u8, 2, 254>, ProtocolVersion>) -> SupportedVersions {
        SupportedVersions::ClientHello(content)
    }
}

/// The case `server_hello` with this content.
impl From<ProtocolVersion> for SupportedVersions {
    ghost from_gives = { λ content value. value ≡ SupportedVersions.ServerHello content };

    fn from(content: ProtocolVersion) -> SupportedVersions {
        SupportedVersions::ServerHello(content)
    }
}

/// Two values are equal if and only if they have the same case and all their fields are equal.
pub fn is_compared_by_its_case()
    ensures tag { (x y : SupportedVersions) →
        IsTrue (⟦<SupportedVersions as PartialEq>⟧.eq x y)
        → supported_versions_tag x ≡ supported_versions_tag y }
    ensures case_1 { (a0 b0 : _) →
        ⟦<SupportedVersions as PartialEq>⟧.eq (SupportedVersions.ClientHello a0)
        (SupportedVersions.ClientHello b0)
        ≡ ⟦<TlsVec<Within<u8, 2, 254>, ProtocolVersion> as PartialEq>⟧.eq a0 b0 }
    ensures case_2 { (a0 b0 : _) →
        ⟦<SupportedVersions as PartialEq>⟧.eq (SupportedVersions.ServerHello a0)
        (SupportedVersions.ServerHello b0)
        ≡ ⟦<ProtocolVersion as PartialEq>⟧.eq a0 b0 }
{}
