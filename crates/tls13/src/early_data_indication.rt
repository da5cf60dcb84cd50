//! [`EarlyDataIndication`].
ghost use Rattle.std.specs.Prelude.{◌≡◌, IsTrue};
ghost use Rattle.tls13.specs.EarlyDataIndication.{early_data_indication_format_for, early_data_indication_meets_for, early_data_indication_plain, early_data_indication_tag, early_data_indication_variants};
ghost use Rattle.tls13.specs.declared.early_data_indication.EarlyDataIndication.{EarlyDataIndication};

use crate::{EmptyType, HandshakeType};
use std::alloc::Global;
use tls_codec::{
    ByRef, DeserializeBytesFor, DeserializeFor, Error, SerializeFor, Sink, SizeFor, Source,
};
use tls_codec_cases::{Case, Chosen, Or, append_as_for, write_as_for};
use tls_codec_validate::{Rejected, ValidateFor};
use tls_codec_views::ChoiceFor;

/// `select (msg_type)` of `EarlyDataIndication` (RFC 8446, appendix B.3.1): its bytes don't
/// have the tag.
#[derive(PartialEq, Eq, Debug, Clone, Drop)]
pub enum EarlyDataIndication {
    /// `case new_session_ticket: uint32 max_early_data_size;`
    NewSessionTicket(u32),
    /// `case client_hello: Empty;`
    ClientHello(EmptyType),
    /// `case encrypted_extensions: Empty;`
    EncryptedExtensions(EmptyType),
}

type Cases = Chosen<Or<Or<Case<4, u32>, Case<1, EmptyType>>, Case<8, EmptyType>>>;

type ByRefCases<'a> = Chosen<
    Or<Or<Case<4, ByRef<'a, u32>>, Case<1, ByRef<'a, EmptyType>>>, Case<8, ByRef<'a, EmptyType>>>,
>;

impl EarlyDataIndication {
    fn cases(&self) -> ByRefCases<'_>
        ensures { ⟦<ByRefCases<'static> as SizeFor<HandshakeType>>⟧.plain result
            ≡ early_data_indication_plain self.now }
    {
        let cases = match self {
            EarlyDataIndication::NewSessionTicket(max_early_data_size) => Or::First(Or::First(Case(
                ByRef(max_early_data_size),
            ))),
            EarlyDataIndication::ClientHello(empty) => Or::First(Or::Second(Case(ByRef(empty)))),
            EarlyDataIndication::EncryptedExtensions(empty) => Or::Second(Case(ByRef(empty))),
        };
        Chosen(cases)
    }

    fn of(cases: Cases) -> EarlyDataIndication
        ensures { early_data_indication_plain result ≡ ⟦<Cases as SizeFor<HandshakeType>>⟧.plain
            cases }
    {
        match cases.0 {
            Or::First(Or::First(case)) => EarlyDataIndication::NewSessionTicket(case.0),
            Or::First(Or::Second(case)) => EarlyDataIndication::ClientHello(case.0),
            Or::Second(case) => EarlyDataIndication::EncryptedExtensions(case.0),
        }
    }
}

impl SizeFor<HandshakeType> for EarlyDataIndication {
    ghost plain = { early_data_indication_plain };

    ghost format_for = { early_data_indication_format_for };

    fn tls_serialized_len_for(&self, msg_type: &HandshakeType) -> usize {
        self.cases().tls_serialized_len_for(msg_type)
    }

    ghost lawful = { early_data_indication_meets_for };
}

/// `EncodingError("value does not fit its context")`: the value's case is for another tag.
impl SerializeFor<HandshakeType> for EarlyDataIndication {
    fn tls_serialize_for<W: Sink>(
        &self,
        msg_type: &HandshakeType,
        writer: &mut W,
    ) -> Result<usize, Error> {
        write_as_for(self, &self.cases(), msg_type, writer)
    }

    fn tls_serialize_into_for(
        &self,
        msg_type: &HandshakeType,
        out: &mut Vec<u8>,
    ) -> Result<usize, Error> {
        append_as_for(self, &self.cases(), msg_type, out)
    }
}

impl DeserializeFor<HandshakeType> for EarlyDataIndication {
    ghost names = { ⟦<Cases as DeserializeFor<HandshakeType>>⟧.names };

    /// `UnknownValue`: no case has the context's tag.
    fn tls_deserialize_for<R: Source>(
        msg_type: &HandshakeType,
        alloc: Global,
        src: &mut R,
    ) -> Result<EarlyDataIndication, Error> {
        let cases = <Cases>::tls_deserialize_for(msg_type, alloc, src)?;
        Ok(EarlyDataIndication::of(cases))
    }
}

impl DeserializeBytesFor<HandshakeType> for EarlyDataIndication {
    ghost names = { ⟦<Cases as DeserializeBytesFor<HandshakeType>>⟧.names };

    /// `UnknownValue`: no case has the context's tag.
    fn tls_deserialize_bytes_for<'a>(
        msg_type: &HandshakeType,
        alloc: Global,
        whole: &'a [u8],
    ) -> Result<(EarlyDataIndication, &'a [u8]), Error> {
        let (cases, rest) = <Cases>::tls_deserialize_bytes_for(msg_type, alloc, whole)?;
        Ok((EarlyDataIndication::of(cases), rest))
    }
}

impl ValidateFor<HandshakeType> for EarlyDataIndication {
    ghost places = { ⟦<Cases as ValidateFor<HandshakeType>>⟧.places };

    fn tls_validate_prefix_for<'a>(key: &u64, whole: &'a [u8]) -> Result<&'a [u8], Rejected<'a>> {
        <Cases as ValidateFor<HandshakeType>>::tls_validate_prefix_for(key, whole)
    }
}

impl ChoiceFor<HandshakeType> for EarlyDataIndication {
    ghost variants = { early_data_indication_variants };

    ghost as_choice = { λ c bytes is. is };
}

/// The case `new_session_ticket` with this content.
impl From<u32> for EarlyDataIndication {
    ghost from_gives = { λ content value. value ≡ EarlyDataIndication.NewSessionTicket content };

    fn from(content: u32) -> EarlyDataIndication {
        EarlyDataIndication::NewSessionTicket(content)
    }
}

/// Two values are equal if and only if they have the same case and all their fields are equal.
pub fn is_compared_by_its_case()
    ensures tag { (x y : EarlyDataIndication) →
        IsTrue (⟦<EarlyDataIndication as PartialEq>⟧.eq x y)
        → early_data_indication_tag x ≡ early_data_indication_tag y }
    ensures case_4 { (a0 b0 : _) →
        ⟦<EarlyDataIndication as PartialEq>⟧.eq (EarlyDataIndication.NewSessionTicket a0)
        (EarlyDataIndication.NewSessionTicket b0)
        ≡ ⟦<u32 as PartialEq>⟧.eq a0 b0 }
    ensures case_1 { (a0 b0 : _) →
        ⟦<EarlyDataIndication as PartialEq>⟧.eq (EarlyDataIndication.ClientHello a0)
        (EarlyDataIndication.ClientHello b0)
        ≡ ⟦<EmptyType as PartialEq>⟧.eq a0 b0 }
    ensures case_8 { (a0 b0 : _) →
        ⟦<EarlyDataIndication as PartialEq>⟧.eq (EarlyDataIndication.EncryptedExtensions a0)
        (EarlyDataIndication.EncryptedExtensions b0)
        ≡ ⟦<EmptyType as PartialEq>⟧.eq a0 b0 }
{}
