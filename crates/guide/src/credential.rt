//! [`Credential`], an enum of your own.
ghost use Rattle.std.specs.Prelude.{◌≡◌};
ghost use Rattle.guide.specs.Credentials.{credential_format, credential_meets, credential_plain};

use std::alloc::Global;
use std::marker::PhantomData;
use tls_codec::{
    ByRef, Deserialize, DeserializeBytes, Error, Serialize, Sink, Size, Source, VLBytes,
};
use tls_codec_cases::{Case, Or, Tagged, append_as, write_as};
use tls_codec_validate::{Rejected, Validate};

/// How a member of a group is known to the others (RFC 9420, section 5.3); a certificate is its bytes.
#[derive(PartialEq, Eq, Debug, Clone, Drop)]
pub enum Credential {
    Basic(VLBytes),
    X509(Vec<VLBytes>),
}

type Credentials = Tagged<u16, Or<Case<1, VLBytes>, Case<2, Vec<VLBytes>>>>;

type BorrowedCredentials<'a> = Tagged<
    u16,
    Or<Case<1, ByRef<'a, VLBytes>>, Case<2, ByRef<'a, Vec<VLBytes>>>>,
>;

impl Credential {
    fn cases(&self) -> BorrowedCredentials<'_>
        ensures { ⟦<BorrowedCredentials<'static> as Size>⟧.plain result
            ≡ credential_plain self.now }
    {
        let cases = match self {
            Credential::Basic(identity) => Or::First(Case(ByRef(identity))),
            Credential::X509(certificates) => Or::Second(Case(ByRef(certificates))),
        };
        Tagged(cases, PhantomData)
    }

    fn of(cases: Credentials) -> Credential
        ensures { credential_plain result ≡ ⟦<Credentials as Size>⟧.plain cases }
    {
        match cases.0 {
            Or::First(basic) => Credential::Basic(basic.0),
            Or::Second(x509) => Credential::X509(x509.0),
        }
    }
}

impl Size for Credential {
    ghost plain = { credential_plain };

    ghost format = { credential_format };

    fn tls_serialized_len(&self) -> usize {
        self.cases().tls_serialized_len()
    }

    ghost lawful = { credential_meets };
}

impl Serialize for Credential {
    fn tls_serialize<W: Sink>(&self, writer: &mut W) -> Result<usize, Error> {
        write_as(self, &self.cases(), writer)
    }

    fn tls_serialize_into(&self, out: &mut Vec<u8>) -> Result<usize, Error> {
        append_as(self, &self.cases(), out)
    }
}

impl Deserialize for Credential {
    ghost names = { ⟦<Credentials as Deserialize>⟧.names };

    /// `UnknownValue`: no credential has the tag.
    fn tls_deserialize<R: Source>(alloc: Global, src: &mut R) -> Result<Credential, Error> {
        let cases = <Credentials>::tls_deserialize(alloc, src)?;
        Ok(Credential::of(cases))
    }
}

impl DeserializeBytes for Credential {
    ghost names = { ⟦<Credentials as DeserializeBytes>⟧.names };

    /// `UnknownValue`: no credential has the tag.
    fn tls_deserialize_bytes(alloc: Global, whole: &[u8]) -> Result<(Credential, &[u8]), Error> {
        let (cases, rest) = <Credentials>::tls_deserialize_bytes(alloc, whole)?;
        Ok((Credential::of(cases), rest))
    }
}

impl Validate for Credential {
    ghost places = { ⟦<Credentials as Validate>⟧.places };

    fn tls_validate_prefix(whole: &[u8]) -> Result<&[u8], Rejected<'_>> {
        <Credentials>::tls_validate_prefix(whole)
    }
}
