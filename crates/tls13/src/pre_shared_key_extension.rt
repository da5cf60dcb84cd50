//! [`PreSharedKeyExtension`].
ghost use Rattle.std.specs.Prelude.{◌≡◌, IsTrue};
ghost use Rattle.tls13.specs.PreSharedKeyExtension.{pre_shared_key_extension_format_for, pre_shared_key_extension_meets_for, pre_shared_key_extension_plain, pre_shared_key_extension_tag, pre_shared_key_extension_variants};
ghost use Rattle.tls13.specs.declared.pre_shared_key_extension.PreSharedKeyExtension.{PreSharedKeyExtension};

use crate::{HandshakeType, OfferedPsks};
use std::alloc::Global;
use tls_codec::{
    ByRef, DeserializeBytesFor, DeserializeFor, Error, SerializeFor, Sink, SizeFor, Source,
};
use tls_codec_cases::{Case, Chosen, Or, append_as_for, write_as_for};
use tls_codec_validate::{Rejected, ValidateFor};
use tls_codec_views::ChoiceFor;

/// `select (msg_type)` of `PreSharedKeyExtension` (RFC 8446, appendix B.3.1): its bytes
/// don't have the tag.
#[derive(PartialEq, Eq, Debug, Clone, Drop)]
pub enum PreSharedKeyExtension {
    /// `case client_hello: OfferedPsks;`
    ClientHello(OfferedPsks),
    /// `case server_hello: uint16 selected_identity;`
    ServerHello(u16),
}

type Cases = Chosen<Or<Case<1, OfferedPsks>, Case<2, u16>>>;

type ByRefCases<'a> = Chosen<Or<Case<1, ByRef<'a, OfferedPsks>>, Case<2, ByRef<'a, u16>>>>;

impl PreSharedKeyExtension {
    fn cases(&self) -> ByRefCases<'_>
        ensures { ⟦<ByRefCases<'static> as SizeFor<HandshakeType>>⟧.plain result
            ≡ pre_shared_key_extension_plain self.now }
    {
        let cases = match self {
            PreSharedKeyExtension::ClientHello(offered_psks) => Or::First(Case(ByRef(
                offered_psks,
            ))),
            PreSharedKeyExtension::ServerHello(selected_identity) => Or::Second(Case(ByRef(
                selected_identity,
            ))),
        };
        Chosen(cases)
    }

    fn of(cases: Cases) -> PreSharedKeyExtension
        ensures { pre_shared_key_extension_plain result
            ≡ ⟦<Cases as SizeFor<HandshakeType>>⟧.plain cases }
    {
        match cases.0 {
            Or::First(case) => PreSharedKeyExtension::ClientHello(case.0),
            Or::Second(case) => PreSharedKeyExtension::ServerHello(case.0),
        }
    }
}

impl SizeFor<HandshakeType> for PreSharedKeyExtension {
    ghost plain = { pre_shared_key_extension_plain };

    ghost format_for = { pre_shared_key_extension_format_for };

    fn tls_serialized_len_for(&self, msg_type: &HandshakeType) -> usize {
        self.cases().tls_serialized_len_for(msg_type)
    }

    ghost lawful = { pre_shared_key_extension_meets_for };
}

/// `EncodingError("value does not fit its context")`: the value's case is for another tag.
impl SerializeFor<HandshakeType> for PreSharedKeyExtension {
    fn tls_serialize_for<W: Sink>(
        &self,
        msg_type: &HandshakeType,
        writer: &mut W,
    ) -> Result<usize, Error> {
        write_as_for(self, &self.cases(), msg_type, writer)
    }

    fn tls_serialize_into_for(
        &self,
        msg_type: &HandshakeType,
        out: &mut Vec<u8>,
    ) -> Result<usize, Error> {
        append_as_for(self, &self.cases(), msg_type, out)
    }
}

impl DeserializeFor<HandshakeType> for PreSharedKeyExtension {
    ghost names = { ⟦<Cases as DeserializeFor<HandshakeType>>⟧.names };

    /// `UnknownValue`: no case has the context's tag.
    fn tls_deserialize_for<R: Source>(
        msg_type: &HandshakeType,
        alloc: Global,
        src: &mut R,
    ) -> Result<PreSharedKeyExtension, Error> {
        let cases = <Cases>::tls_deserialize_for(msg_type, alloc, src)?;
        Ok(PreSharedKeyExtension::of(cases))
    }
}

impl DeserializeBytesFor<HandshakeType> for PreSharedKeyExtension {
    ghost names = { ⟦<Cases as DeserializeBytesFor<HandshakeType>>⟧.names };

    /// `UnknownValue`: no case has the context's tag.
    fn tls_deserialize_bytes_for<'a>(
        msg_type: &HandshakeType,
        alloc: Global,
        whole: &'a [u8],
    ) -> Result<(PreSharedKeyExtension, &'a [u8]), Error> {
        let (cases, rest) = <Cases>::tls_deserialize_bytes_for(msg_type, alloc, whole)?;
        Ok((PreSharedKeyExtension::of(cases), rest))
    }
}

impl ValidateFor<HandshakeType> for PreSharedKeyExtension {
    ghost places = { ⟦<Cases as ValidateFor<HandshakeType>>⟧.places };

    fn tls_validate_prefix_for<'a>(key: &u64, whole: &'a [u8]) -> Result<&'a [u8], Rejected<'a>> {
        <Cases as ValidateFor<HandshakeType>>::tls_validate_prefix_for(key, whole)
    }
}

impl ChoiceFor<HandshakeType> for PreSharedKeyExtension {
    ghost variants = { pre_shared_key_extension_variants };

    ghost as_choice = { λ c bytes is. is };
}

/// The case `client_hello` with this content.
impl From<OfferedPsks> for PreSharedKeyExtension {
    ghost from_gives = { λ content value. value ≡ PreSharedKeyExtension.ClientHello content };

    fn from(content: OfferedPsks) -> PreSharedKeyExtension {
        PreSharedKeyExtension::ClientHello(content)
    }
}

/// The case `server_hello` with this content.
impl From<u16> for PreSharedKeyExtension {
    ghost from_gives = { λ content value. value ≡ PreSharedKeyExtension.ServerHello content };

    fn from(content: u16) -> PreSharedKeyExtension {
        PreSharedKeyExtension::ServerHello(content)
    }
}

/// Two values are equal if and only if they have the same case and all their fields are equal.
pub fn is_compared_by_its_case()
    ensures tag { (x y : PreSharedKeyExtension) →
        IsTrue (⟦<PreSharedKeyExtension as PartialEq>⟧.eq x y)
        → pre_shared_key_extension_tag x ≡ pre_shared_key_extension_tag y }
    ensures case_1 { (a0 b0 : _) →
        ⟦<PreSharedKeyExtension as PartialEq>⟧.eq (PreSharedKeyExtension.ClientHello a0)
        (PreSharedKeyExtension.ClientHello b0)
        ≡ ⟦<OfferedPsks as PartialEq>⟧.eq a0 b0 }
    ensures case_2 { (a0 b0 : _) →
        ⟦<PreSharedKeyExtension as PartialEq>⟧.eq (PreSharedKeyExtension.ServerHello a0)
        (PreSharedKeyExtension.ServerHello b0)
        ≡ ⟦<u16 as PartialEq>⟧.eq a0 b0 }
{}
