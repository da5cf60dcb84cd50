//! [`Handshake`].
ghost use Rattle.std.specs.Prelude.{◌≡◌, IsTrue};
ghost use Rattle.tls13.specs.HandshakeType.{handshake_type_code};
ghost use Rattle.tls13.specs.Handshake.{handshake_format, handshake_meets, handshake_plain, handshake_tag, handshake_variants};
ghost use Rattle.tls13.specs.declared.handshake.Handshake.{Handshake};
ghost use Rattle.tls_codec_views.specs.Views.{IsCase};
ghost use Rattle.tls13.specs.declared.handshake.HandshakeView.{HandshakeView};

use crate::{
    Certificate, CertificateRequest, CertificateVerify, ClientHello, EncryptedExtensions,
    EndOfEarlyData, HandshakeType, KeyUpdate, NewSessionTicket, ServerHello,
};
use std::alloc::Global;
use std::marker::PhantomData;
use tls_codec::{
    ByRef, Deserialize, DeserializeBytes, Error, Serialize, Sink, Size, Source, TlsByteVecU24, U24,
};
use tls_codec_cases::{Case, Enclosed, Or, Tagged, append_as, write_as};
use tls_codec_validate::{Rejected, Validate};
use tls_codec_views::{Choice, Encoded};

/// `HandshakeType msg_type` of `Handshake` (RFC 8446, appendix B.3), and what comes after
/// each.
#[derive(PartialEq, Eq, Debug, Clone, Drop)]
pub enum Handshake {
    /// `case client_hello: ClientHello;`
    ClientHello(ClientHello),
    /// `case server_hello: ServerHello;`
    ServerHello(ServerHello),
    /// `case end_of_early_data: EndOfEarlyData;`
    EndOfEarlyData(EndOfEarlyData),
    /// `case encrypted_extensions: EncryptedExtensions;`
    EncryptedExtensions(EncryptedExtensions),
    /// `case certificate_request: CertificateRequest;`
    CertificateRequest(CertificateRequest),
    /// `case certificate: Certificate;`
    Certificate(Certificate),
    /// `case certificate_verify: CertificateVerify;`
    CertificateVerify(CertificateVerify),
    /// `case finished: opaque verify_data[Hash.length];`
    Finished(TlsByteVecU24),
    /// `case new_session_ticket: NewSessionTicket;`
    NewSessionTicket(NewSessionTicket),
    /// `case key_update: KeyUpdate;`
    KeyUpdate(KeyUpdate),
}

type Cases = Tagged<
    u8,
    Or<
        Or<
            Or<
                Or<Case<1, Enclosed<U24, ClientHello>>, Case<2, Enclosed<U24, ServerHello>>>,
                Or<
                    Case<5, Enclosed<U24, EndOfEarlyData>>,
                    Case<8, Enclosed<U24, EncryptedExtensions>>,
                >,
            >,
            Or<
                Or<
                    Case<13, Enclosed<U24, CertificateRequest>>,
                    Case<11, Enclosed<U24, Certificate>>,
                >,
                Or<Case<15, Enclosed<U24, CertificateVerify>>, Case<20, TlsByteVecU24>>,
            >,
        >,
        Or<Case<4, Enclosed<U24, NewSessionTicket>>, Case<24, Enclosed<U24, KeyUpdate>>>,
    >,
>;

type ByRefCases<'a> = Tagged<
    u8,
    Or<
        Or<
            Or<
                Or<
                    Case<1, Enclosed<U24, ByRef<'a, ClientHello>>>,
                    Case<2, Enclosed<U24, ByRef<'a, ServerHello>>>,
                >,
                Or<
                    Case<5, Enclosed<U24, ByRef<'a, EndOfEarlyData>>>,
                    Case<8, Enclosed<U24, ByRef<'a, EncryptedExtensions>>>,
                >,
            >,
            Or<
                Or<
                    Case<13, Enclosed<U24, ByRef<'a, CertificateRequest>>>,
                    Case<11, Enclosed<U24, ByRef<'a, Certificate>>>,
                >,
                Or<
                    Case<15, Enclosed<U24, ByRef<'a, CertificateVerify>>>,
                    Case<20, ByRef<'a, TlsByteVecU24>>,
                >,
            >,
        >,
        Or<
            Case<4, Enclosed<U24, ByRef<'a, NewSessionTicket>>>,
            Case<24, Enclosed<U24, ByRef<'a, KeyUpdate>>>,
        >,
    >,
>;

impl Handshake {
    fn cases(&self) -> ByRefCases<'_>
        ensures { ⟦<ByRefCases<'static> as Size>⟧.plain result
            ≡ handshake_plain self.now }
    {
        let cases = match self {
            Handshake::ClientHello(client_hello) => Or::First(Or::First(Or::First(Or::First(Case(
                Enclosed(ByRef(client_hello), PhantomData),
            ))))),
            Handshake::ServerHello(server_hello) => Or::First(Or::First(Or::First(Or::Second(Case(
                Enclosed(ByRef(server_hello), PhantomData),
            ))))),
            Handshake::EndOfEarlyData(end_of_early_data) => Or::First(Or::First(Or::Second(
                Or::First(Case(Enclosed(ByRef(end_of_early_data), PhantomData))),
            ))),
            Handshake::EncryptedExtensions(encrypted_extensions) => Or::First(Or::First(Or::Second(
                Or::Second(Case(Enclosed(ByRef(encrypted_extensions), PhantomData))),
            ))),
            Handshake::CertificateRequest(certificate_request) => Or::First(Or::Second(Or::First(
                Or::First(Case(Enclosed(ByRef(certificate_request), PhantomData))),
            ))),
            Handshake::Certificate(certificate) => Or::First(Or::Second(Or::First(Or::Second(Case(
                Enclosed(ByRef(certificate), PhantomData),
            ))))),
            Handshake::CertificateVerify(certificate_verify) => Or::First(Or::Second(Or::Second(
                Or::First(Case(Enclosed(ByRef(certificate_verify), PhantomData))),
            ))),
            Handshake::Finished(verify_data) => Or::First(Or::Second(Or::Second(Or::Second(Case(
                ByRef(verify_data),
            ))))),
            Handshake::NewSessionTicket(new_session_ticket) => Or::Second(Or::First(Case(Enclosed(
                ByRef(new_session_ticket),
                PhantomData,
            )))),
            Handshake::KeyUpdate(key_update) => Or::Second(Or::Second(Case(Enclosed(
                ByRef(key_update),
                PhantomData,
            )))),
        };
        Tagged(cases, PhantomData)
    }

    fn of(cases: Cases) -> Handshake
        ensures { handshake_plain result ≡ ⟦<Cases as Size>⟧.plain cases }
    {
        match cases.0 {
            Or::First(Or::First(Or::First(Or::First(case)))) => Handshake::ClientHello(case.0.0),
            Or::First(Or::First(Or::First(Or::Second(case)))) => Handshake::ServerHello(case.0.0),
            Or::First(Or::First(Or::Second(Or::First(case)))) => Handshake::EndOfEarlyData(
                case.0.0,
            ),
            Or::First(Or::First(Or::Second(Or::Second(case)))) => Handshake::EncryptedExtensions(
                case.0.0,
            ),
            Or::First(Or::Second(Or::First(Or::First(case)))) => Handshake::CertificateRequest(
                case.0.0,
            ),
            Or::First(Or::Second(Or::First(Or::Second(case)))) => Handshake::Certificate(case.0.0),
            Or::First(Or::Second(Or::Second(Or::First(case)))) => Handshake::CertificateVerify(
                case.0.0,
            ),
            Or::First(Or::Second(Or::Second(Or::Second(case)))) => Handshake::Finished(case.0),
            Or::Second(Or::First(case)) => Handshake::NewSessionTicket(case.0.0),
            Or::Second(Or::Second(case)) => Handshake::KeyUpdate(case.0.0),
        }
    }
}

impl Size for Handshake {
    ghost plain = { handshake_plain };

    ghost format = { handshake_format };

    fn tls_serialized_len(&self) -> usize {
        self.cases().tls_serialized_len()
    }

    ghost lawful = { handshake_meets };
}

impl Serialize for Handshake {
    fn tls_serialize<W: Sink>(&self, writer: &mut W) -> Result<usize, Error> {
        write_as(self, &self.cases(), writer)
    }

    fn tls_serialize_into(&self, out: &mut Vec<u8>) -> Result<usize, Error> {
        append_as(self, &self.cases(), out)
    }
}

impl Deserialize for Handshake {
    ghost names = { ⟦<Cases as Deserialize>⟧.names };

    /// `TrailingData`: bytes are left within the length, after the fields of the case.
    /// `UnknownValue`: no case has the tag.
    fn tls_deserialize<R: Source>(alloc: Global, src: &mut R) -> Result<Handshake, Error> {
        let cases = <Cases>::tls_deserialize(alloc, src)?;
        Ok(Handshake::of(cases))
    }
}

impl DeserializeBytes for Handshake {
    ghost names = { ⟦<Cases as DeserializeBytes>⟧.names };

    /// `TrailingData`: bytes are left within the length, after the fields of the case.
    /// `UnknownValue`: no case has the tag.
    fn tls_deserialize_bytes(alloc: Global, whole: &[u8]) -> Result<(Handshake, &[u8]), Error> {
        let (cases, rest) = <Cases>::tls_deserialize_bytes(alloc, whole)?;
        Ok((Handshake::of(cases), rest))
    }
}

impl Validate for Handshake {
    ghost places = { ⟦<Cases as Validate>⟧.places };

    fn tls_validate_prefix(whole: &[u8]) -> Result<&[u8], Rejected<'_>> {
        <Cases>::tls_validate_prefix(whole)
    }
}

impl Choice for Handshake {
    type Tag = u8;

    ghost variants = { handshake_variants };

    ghost as_choice = { λ bytes is. is };
}

/// The encoding of a [`Handshake`], split into its case and fields.
#[derive(Drop)]
pub enum HandshakeView<'a> {
    /// `case client_hello: ClientHello;`
    ClientHello(Encoded<'a, Enclosed<U24, ClientHello>>),
    /// `case server_hello: ServerHello;`
    ServerHello(Encoded<'a, Enclosed<U24, ServerHello>>),
    /// `case end_of_early_data: EndOfEarlyData;`
    EndOfEarlyData(Encoded<'a, Enclosed<U24, EndOfEarlyData>>),
    /// `case encrypted_extensions: EncryptedExtensions;`
    EncryptedExtensions(Encoded<'a, Enclosed<U24, EncryptedExtensions>>),
    /// `case certificate_request: CertificateRequest;`
    CertificateRequest(Encoded<'a, Enclosed<U24, CertificateRequest>>),
    /// `case certificate: Certificate;`
    Certificate(Encoded<'a, Enclosed<U24, Certificate>>),
    /// `case certificate_verify: CertificateVerify;`
    CertificateVerify(Encoded<'a, Enclosed<U24, CertificateVerify>>),
    /// `case finished: opaque verify_data[Hash.length];`
    Finished(Encoded<'a, TlsByteVecU24>),
    /// `case new_session_ticket: NewSessionTicket;`
    NewSessionTicket(Encoded<'a, Enclosed<U24, NewSessionTicket>>),
    /// `case key_update: KeyUpdate;`
    KeyUpdate(Encoded<'a, Enclosed<U24, KeyUpdate>>),
}

impl<'a> From<Encoded<'a, Handshake>> for HandshakeView<'a> {
    ghost from_gives = { λ whole view. elim view as (λ v. Type 0) [
      | HandshakeView.ClientHello a0 ↦ IsCase 1 1 whole a0
      | HandshakeView.ServerHello a0 ↦ IsCase 1 2 whole a0
      | HandshakeView.EndOfEarlyData a0 ↦ IsCase 1 5 whole a0
      | HandshakeView.EncryptedExtensions a0 ↦ IsCase 1 8 whole a0
      | HandshakeView.CertificateRequest a0 ↦ IsCase 1 13 whole a0
      | HandshakeView.Certificate a0 ↦ IsCase 1 11 whole a0
      | HandshakeView.CertificateVerify a0 ↦ IsCase 1 15 whole a0
      | HandshakeView.Finished a0 ↦ IsCase 1 20 whole a0
      | HandshakeView.NewSessionTicket a0 ↦ IsCase 1 4 whole a0
      | HandshakeView.KeyUpdate a0 ↦ IsCase 1 24 whole a0
    ] };

    fn from(whole: Encoded<'a, Handshake>) -> HandshakeView<'a> {
        let (tag, parts) = whole.case();
        match tag {
            1 => HandshakeView::ClientHello(Encoded::from_proved(parts)),
            2 => HandshakeView::ServerHello(Encoded::from_proved(parts)),
            5 => HandshakeView::EndOfEarlyData(Encoded::from_proved(parts)),
            8 => HandshakeView::EncryptedExtensions(Encoded::from_proved(parts)),
            13 => HandshakeView::CertificateRequest(Encoded::from_proved(parts)),
            11 => HandshakeView::Certificate(Encoded::from_proved(parts)),
            15 => HandshakeView::CertificateVerify(Encoded::from_proved(parts)),
            20 => HandshakeView::Finished(Encoded::from_proved(parts)),
            4 => HandshakeView::NewSessionTicket(Encoded::from_proved(parts)),
            24 => HandshakeView::KeyUpdate(Encoded::from_proved(parts)),
            _ => unreachable!(),
        }
    }
}

impl Handshake {
    /// The tag of this value's case.
    pub fn msg_type(&self) -> HandshakeType
        ensures { handshake_type_code result ≡ handshake_tag self.now }
    {
        match self {
            Handshake::ClientHello(_) => HandshakeType::ClientHello,
            Handshake::ServerHello(_) => HandshakeType::ServerHello,
            Handshake::EndOfEarlyData(_) => HandshakeType::EndOfEarlyData,
            Handshake::EncryptedExtensions(_) => HandshakeType::EncryptedExtensions,
            Handshake::CertificateRequest(_) => HandshakeType::CertificateRequest,
            Handshake::Certificate(_) => HandshakeType::Certificate,
            Handshake::CertificateVerify(_) => HandshakeType::CertificateVerify,
            Handshake::Finished(_) => HandshakeType::Finished,
            Handshake::NewSessionTicket(_) => HandshakeType::NewSessionTicket,
            Handshake::KeyUpdate(_) => HandshakeType::KeyUpdate,
        }
    }
}

/// The case `client_hello` with this content.
impl From<ClientHello> for Handshake {
    ghost from_gives = { λ content value. value ≡ Handshake.ClientHello content };

    fn from(content: ClientHello) -> Handshake {
        Handshake::ClientHello(content)
    }
}

/// The case `server_hello` with this content.
impl From<ServerHello> for Handshake {
    ghost from_gives = { λ content value. value ≡ Handshake.ServerHello content };

    fn from(content: ServerHello) -> Handshake {
        Handshake::ServerHello(content)
    }
}

/// The case `end_of_early_data` with this content.
impl From<EndOfEarlyData> for Handshake {
    ghost from_gives = { λ content value. value ≡ Handshake.EndOfEarlyData content };

    fn from(content: EndOfEarlyData) -> Handshake {
        Handshake::EndOfEarlyData(content)
    }
}

/// The case `encrypted_extensions` with this content.
impl From<EncryptedExtensions> for Handshake {
    ghost from_gives = { λ content value. value ≡ Handshake.EncryptedExtensions content };

    fn from(content: EncryptedExtensions) -> Handshake {
        Handshake::EncryptedExtensions(content)
    }
}

/// The case `certificate_request` with this content.
impl From<CertificateRequest> for Handshake {
    ghost from_gives = { λ content value. value ≡ Handshake.CertificateRequest content };

    fn from(content: CertificateRequest) -> Handshake {
        Handshake::CertificateRequest(content)
    }
}

/// The case `certificate` with this content.
impl From<Certificate> for Handshake {
    ghost from_gives = { λ content value. value ≡ Handshake.Certificate content };

    fn from(content: Certificate) -> Handshake {
        Handshake::Certificate(content)
    }
}

/// The case `certificate_verify` with this content.
impl From<CertificateVerify> for Handshake {
    ghost from_gives = { λ content value. value ≡ Handshake.CertificateVerify content };

    fn from(content: CertificateVerify) -> Handshake {
        Handshake::CertificateVerify(content)
    }
}

/// The case `finished` with this content.
impl From<TlsByteVecU24> for Handshake {
    ghost from_gives = { λ content value. value ≡ Handshake.Finished content };

    fn from(content: TlsByteVecU24) -> Handshake {
        Handshake::Finished(content)
    }
}

/// The case `new_session_ticket` with this content.
impl From<NewSessionTicket> for Handshake {
    ghost from_gives = { λ content value. value ≡ Handshake.NewSessionTicket content };

    fn from(content: NewSessionTicket) -> Handshake {
        Handshake::NewSessionTicket(content)
    }
}

/// The case `key_update` with this content.
impl From<KeyUpdate> for Handshake {
    ghost from_gives = { λ content value. value ≡ Handshake.KeyUpdate content };

    fn from(content: KeyUpdate) -> Handshake {
        Handshake::KeyUpdate(content)
    }
}

/// Two values are equal if and only if they have the same case and all their fields are equal.
pub fn is_compared_by_its_case()
    ensures tag { (x y : Handshake) →
        IsTrue (⟦<Handshake as PartialEq>⟧.eq x y) → handshake_tag x ≡ handshake_tag y }
    ensures case_1 { (a0 b0 : _) →
        ⟦<Handshake as PartialEq>⟧.eq (Handshake.ClientHello a0) (Handshake.ClientHello b0)
        ≡ ⟦<ClientHello as PartialEq>⟧.eq a0 b0 }
    ensures case_2 { (a0 b0 : _) →
        ⟦<Handshake as PartialEq>⟧.eq (Handshake.ServerHello a0) (Handshake.ServerHello b0)
        ≡ ⟦<ServerHello as PartialEq>⟧.eq a0 b0 }
    ensures case_5 { (a0 b0 : _) →
        ⟦<Handshake as PartialEq>⟧.eq (Handshake.EndOfEarlyData a0) (Handshake.EndOfEarlyData b0)
        ≡ ⟦<EndOfEarlyData as PartialEq>⟧.eq a0 b0 }
    ensures case_8 { (a0 b0 : _) →
        ⟦<Handshake as PartialEq>⟧.eq (Handshake.EncryptedExtensions a0)
        (Handshake.EncryptedExtensions b0)
        ≡ ⟦<EncryptedExtensions as PartialEq>⟧.eq a0 b0 }
    ensures case_13 { (a0 b0 : _) →
        ⟦<Handshake as PartialEq>⟧.eq (Handshake.CertificateRequest a0)
        (Handshake.CertificateRequest b0)
        ≡ ⟦<CertificateRequest as PartialEq>⟧.eq a0 b0 }
    ensures case_11 { (a0 b0 : _) →
        ⟦<Handshake as PartialEq>⟧.eq (Handshake.Certificate a0) (Handshake.Certificate b0)
        ≡ ⟦<Certificate as PartialEq>⟧.eq a0 b0 }
    ensures case_15 { (a0 b0 : _) →
        ⟦<Handshake as PartialEq>⟧.eq (Handshake.CertificateVerify a0)
        (Handshake.CertificateVerify b0)
        ≡ ⟦<CertificateVerify as PartialEq>⟧.eq a0 b0 }
    ensures case_20 { (a0 b0 : _) →
        ⟦<Handshake as PartialEq>⟧.eq (Handshake.Finished a0) (Handshake.Finished b0)
        ≡ ⟦<TlsByteVecU24 as PartialEq>⟧.eq a0 b0 }
    ensures case_4 { (a0 b0 : _) →
        ⟦<Handshake as PartialEq>⟧.eq (Handshake.NewSessionTicket a0)
        (Handshake.NewSessionTicket b0)
        ≡ ⟦<NewSessionTicket as PartialEq>⟧.eq a0 b0 }
    ensures case_24 { (a0 b0 : _) →
        ⟦<Handshake as PartialEq>⟧.eq (Handshake.KeyUpdate a0) (Handshake.KeyUpdate b0)
        ≡ ⟦<KeyUpdate as PartialEq>⟧.eq a0 b0 }
{}
