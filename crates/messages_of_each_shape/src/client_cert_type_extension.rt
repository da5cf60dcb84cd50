//! [`ClientCertTypeExtension`].
ghost use Rattle.std.specs.Prelude.{◌≡◌, IsTrue};
ghost use Rattle.messages_of_each_shape.specs.ClientCertTypeExtension.{client_cert_type_extension_format_for, client_cert_type_extension_meets_for, client_cert_type_extension_plain, client_cert_type_extension_tag, client_cert_type_extension_variants};
ghost use Rattle.messages_of_each_shape.specs.declared.client_cert_type_extension.ClientCertTypeExtension.{ClientCertTypeExtension};

use crate::{CertificateType, ClientOrServerExtension};
use std::alloc::Global;
use tls_codec::{
    ByRef, DeserializeBytesFor, DeserializeFor, Error, SerializeFor, Sink, SizeFor, Source, TlsVec,
    Within,
};
use tls_codec_cases::{Case, Chosen, Or, append_as_for, write_as_for};
use tls_codec_validate::{Rejected, ValidateFor};
use tls_codec_views::ChoiceFor;

/// `select (ClientOrServerExtension)` of `ClientCertTypeExtension`: its bytes don't have
/// the tag.
#[derive(PartialEq, Eq, Debug, Clone, Drop)]
pub enum ClientCertTypeExtension {
    /// `case client: CertificateType client_certificate_types<1..2^8-1>;`
    Client(TlsVec<Within<u8, 1, 255>, CertificateType>),
    /// `case server: CertificateType client_certificate_type;`
    Server(CertificateType),
}

type Cases = Chosen<
    Or<Case<0, TlsVec<Within<u8, 1, 255>, CertificateType>>, Case<1, CertificateType>>,
>;

type ByRefCases<'a> = Chosen<
    Or<
        Case<0, ByRef<'a, TlsVec<Within<u8, 1, 255>, CertificateType>>>,
        Case<1, ByRef<'a, CertificateType>>,
    >,
>;

impl ClientCertTypeExtension {
    fn cases(&self) -> ByRefCases<'_>
        ensures { ⟦<ByRefCases<'static> as SizeFor<ClientOrServerExtension>>⟧.plain result
            ≡ client_cert_type_extension_plain self.now }
    {
        let cases = match self {
            ClientCertTypeExtension::Client(client_certificate_types) => Or::First(Case(ByRef(
                client_certificate_types,
            ))),
            ClientCertTypeExtension::Server(client_certificate_type) => Or::Second(Case(ByRef(
                client_certificate_type,
            ))),
        };
        Chosen(cases)
    }

    fn of(cases: Cases) -> ClientCertTypeExtension
        ensures { client_cert_type_extension_plain result
            ≡ ⟦<Cases as SizeFor<ClientOrServerExtension>>⟧.plain cases }
    {
        match cases.0 {
            Or::First(case) => ClientCertTypeExtension::Client(case.0),
            Or::Second(case) => ClientCertTypeExtension::Server(case.0),
        }
    }
}

impl SizeFor<ClientOrServerExtension> for ClientCertTypeExtension {
    ghost plain = { client_cert_type_extension_plain };

    ghost format_for = { client_cert_type_extension_format_for };

    fn tls_serialized_len_for(
        &self,
        client_or_server_extension: &ClientOrServerExtension,
    ) -> usize {
        self.cases()
            .tls_serialized_len_for(client_or_server_extension)
    }

    ghost lawful = { client_cert_type_extension_meets_for };
}

/// `EncodingError("value does not fit its context")`: the value's case is for another tag.
impl SerializeFor<ClientOrServerExtension> for ClientCertTypeExtension {
    fn tls_serialize_for<W: Sink>(
        &self,
        client_or_server_extension: &ClientOrServerExtension,
        writer: &mut W,
    ) -> Result<usize, Error> {
        write_as_for(self, &self.cases(), client_or_server_extension, writer)
    }

    fn tls_serialize_into_for(
        &self,
        client_or_server_extension: &ClientOrServerExtension,
        out: &mut Vec<u8>,
    ) -> Result<usize, Error> {
        append_as_for(self, &self.cases(), client_or_server_extension, out)
    }
}

impl DeserializeFor<ClientOrServerExtension> for ClientCertTypeExtension {
    ghost names = { ⟦<Cases as DeserializeFor<ClientOrServerExtension>>⟧.names };

    /// `UnknownValue`: no case has the context's tag.
    fn tls_deserialize_for<R: Source>(
        client_or_server_extension: &ClientOrServerExtension,
        alloc: Global,
        src: &mut R,
    ) -> Result<ClientCertTypeExtension, Error> {
        let cases = <Cases>::tls_deserialize_for(client_or_server_extension, alloc, src)?;
        Ok(ClientCertTypeExtension::of(cases))
    }
}

impl DeserializeBytesFor<ClientOrServerExtension> for ClientCertTypeExtension {
    ghost names = { ⟦<Cases as DeserializeBytesFor<ClientOrServerExtension>>⟧.names };

    /// `UnknownValue`: no case has the context's tag.
    fn tls_deserialize_bytes_for<'a>(
        client_or_server_extension: &ClientOrServerExtension,
        alloc: Global,
        whole: &'a [u8],
    ) -> Result<(ClientCertTypeExtension, &'a [u8]), Error> {
        let (cases, rest) = <Cases>::tls_deserialize_bytes_for(
            client_or_server_extension,
            alloc,
            whole,
        )?;
        Ok((ClientCertTypeExtension::of(cases), rest))
    }
}

impl ValidateFor<ClientOrServerExtension> for ClientCertTypeExtension {
    ghost places = { ⟦<Cases as ValidateFor<ClientOrServerExtension>>⟧.places };

    fn tls_validate_prefix_for<'a>(key: &u64, whole: &'a [u8]) -> Result<&'a [u8], Rejected<'a>> {
        <Cases as ValidateFor<ClientOrServerExtension>>::tls_validate_prefix_for(key, whole)
    }
}

impl ChoiceFor<ClientOrServerExtension> for ClientCertTypeExtension {
    ghost variants = { client_cert_type_extension_variants };

    ghost as_choice = { λ c bytes is. is };
}

/// The case `client` with this content.
impl From<TlsVec<Within<u8, 1, 255>, CertificateType>> for ClientCertTypeExtension {
    ghost from_gives = { λ content value. value ≡ ClientCertTypeExtension.Client content };

    fn from(content: TlsVec<Within<u8, 1, 255>, CertificateType>) -> ClientCertTypeExtension {
        ClientCertTypeExtension::Client(content)
    }
}

/// The case `server` with this content.
impl From<CertificateType> for ClientCertTypeExtension {
    ghost from_gives = { λ content value. value ≡ ClientCertTypeExtension.Server content };

    fn from(content: CertificateType) -> ClientCertTypeExtension {
        ClientCertTypeExtension::Server(content)
    }
}

/// Two values are equal if and only if they have the same case and all their fields are equal.
pub fn is_compared_by_its_case()
    ensures tag { (x y : ClientCertTypeExtension) →
        IsTrue (⟦<ClientCertTypeExtension as PartialEq>⟧.eq x y)
        → client_cert_type_extension_tag x ≡ client_cert_type_extension_tag y }
    ensures case_0 { (a0 b0 : _) →
        ⟦<ClientCertTypeExtension as PartialEq>⟧.eq (ClientCertTypeExtension.Client a0)
        (ClientCertTypeExtension.Client b0)
        ≡ ⟦<TlsVec<Within<u8, 1, 255>, CertificateType> as PartialEq>⟧.eq a0 b0 }
    ensures case_1 { (a0 b0 : _) →
        ⟦<ClientCertTypeExtension as PartialEq>⟧.eq (ClientCertTypeExtension.Server a0)
        (ClientCertTypeExtension.Server b0)
        ≡ ⟦<CertificateType as PartialEq>⟧.eq a0 b0 }
{}
