//! [`SessionTicket`].
ghost use Rattle.std.specs.Prelude.{◌≡◌, ◌&&◌, ◌++◌};
ghost use Rattle.messages_of_each_shape.specs.SessionTicket.{session_ticket_format, session_ticket_meets, session_ticket_plain};
ghost use Rattle.messages_of_each_shape.specs.declared.session_ticket.SessionTicket.{SessionTicket};

use crate::{ASN1Cert, EmptyType, MagicX0102, VersionXfefd};
use std::alloc::Global;
use tls_codec::{
    ByRef2, ByRef3, Deserialize, DeserializeBytes, Error, Serialize, Sink, Size, Source,
};
use tls_codec_cases::append_as;
use tls_codec_validate::{Rejected, Validate};
use tls_codec_views::{Encoded, Parted};

/// `session_ticket`.
#[derive(PartialEq, Eq, Debug, Clone, Drop)]
pub struct SessionTicket {
    /// `ASN.1Cert a.1;`
    pub a_1: ASN1Cert,
    /// `Empty type;`
    pub kind: EmptyType,
    /// `uint16 version = {254, 253};`
    pub version: VersionXfefd,
    /// `opaque magic[2] = {1, 2};`
    pub magic: MagicX0102,
    /// `uint16_t wide;`
    pub wide: u16,
}

type Parts = ((ASN1Cert, EmptyType, VersionXfefd), (MagicX0102, u16));

impl Size for SessionTicket {
    ghost plain = { session_ticket_plain };

    ghost format = { session_ticket_format };

    fn tls_serialized_len(&self) -> usize {
        (
            ByRef3(&self.a_1, &self.kind, &self.version),
            ByRef2(&self.magic, &self.wide),
        )
            .tls_serialized_len()
    }

    ghost lawful = { session_ticket_meets };
}

impl Serialize for SessionTicket {
    fn tls_serialize<W: Sink>(&self, writer: &mut W) -> Result<usize, Error> {
        (
            ByRef3(&self.a_1, &self.kind, &self.version),
            ByRef2(&self.magic, &self.wide),
        )
            .tls_serialize(writer)
    }

    fn tls_serialize_into(&self, out: &mut Vec<u8>) -> Result<usize, Error> {
        append_as(
            self,
            &(
                ByRef3(&self.a_1, &self.kind, &self.version),
                ByRef2(&self.magic, &self.wide),
            ),
            out,
        )
    }
}

impl Deserialize for SessionTicket {
    ghost names = { ⟦<Parts as Deserialize>⟧.names };

    fn tls_deserialize<R: Source>(alloc: Global, src: &mut R) -> Result<SessionTicket, Error> {
        let ((a_1, kind, version), (magic, wide)) = <Parts>::tls_deserialize(alloc, src)?;
        Ok(SessionTicket {
            a_1,
            kind,
            version,
            magic,
            wide,
        })
    }
}

impl DeserializeBytes for SessionTicket {
    ghost names = { ⟦<Parts as DeserializeBytes>⟧.names };

    fn tls_deserialize_bytes(alloc: Global, whole: &[u8]) -> Result<(SessionTicket, &[u8]), Error> {
        let (((a_1, kind, version), (magic, wide)), rest) = <Parts>::tls_deserialize_bytes(
            alloc, whole,
        )?;
        Ok((
            SessionTicket {
                a_1,
                kind,
                version,
                magic,
                wide,
            },
            rest,
        ))
    }
}

impl Validate for SessionTicket {
    ghost places = { ⟦<Parts as Validate>⟧.places };

    fn tls_validate_prefix(whole: &[u8]) -> Result<&[u8], Rejected<'_>> {
        <Parts>::tls_validate_prefix(whole)
    }

    fn tls_width() -> Option<usize> {
        <Parts>::tls_width()
    }
}

impl Parted for SessionTicket {
    type Parts = Parts;

    ghost as_parts = { λ bytes is. is };
}

/// The encoding of a [`SessionTicket`], split into its fields.
#[derive(Drop)]
pub struct SessionTicketView<'a> {
    /// `ASN.1Cert a.1;`
    pub a_1: Encoded<'a, ASN1Cert>,
    /// `Empty type;`
    pub kind: Encoded<'a, EmptyType>,
    /// `uint16 version = {254, 253};`
    pub version: Encoded<'a, VersionXfefd>,
    /// `opaque magic[2] = {1, 2};`
    pub magic: Encoded<'a, MagicX0102>,
    /// `uint16_t wide;`
    pub wide: Encoded<'a, u16>,
}

impl<'a> From<Encoded<'a, SessionTicket>> for SessionTicketView<'a> {
    ghost from_gives = { λ whole view. whole ≡ ((view.a_1 ++ (view.kind ++ view.version)) ++
        (view.magic ++ view.wide)) };

    fn from(whole: Encoded<'a, SessionTicket>) -> SessionTicketView<'a> {
        let (parts_0, parts_1) = whole.parts().split();
        let (a_1, kind, version) = parts_0.split();
        let (magic, wide) = parts_1.split();
        SessionTicketView {
            a_1,
            kind,
            version,
            magic,
            wide,
        }
    }
}

/// Two values are equal if and only if all their fields are equal.
pub fn is_compared_by_its_fields()
    ensures { (x y : SessionTicket) →
        ⟦<SessionTicket as PartialEq>⟧.eq x y
        ≡ (⟦<ASN1Cert as PartialEq>⟧.eq x.a_1 y.a_1
        && (⟦<EmptyType as PartialEq>⟧.eq x.kind y.kind
        && (⟦<VersionXfefd as PartialEq>⟧.eq x.version y.version
        && (⟦<MagicX0102 as PartialEq>⟧.eq x.magic y.magic
        && ⟦<u16 as PartialEq>⟧.eq x.wide y.wide)))) }
{}
