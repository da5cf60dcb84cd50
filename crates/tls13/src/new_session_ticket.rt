//! [`NewSessionTicket`].
ghost use Rattle.std.specs.Prelude.{◌≡◌, ◌&&◌, ◌++◌};
ghost use Rattle.tls13.specs.NewSessionTicket.{new_session_ticket_format, new_session_ticket_meets, new_session_ticket_plain};
ghost use Rattle.tls13.specs.declared.new_session_ticket.NewSessionTicket.{NewSessionTicket};

use crate::Extension;
use std::alloc::Global;
use tls_codec::{
    ByRef2, ByRef3, Deserialize, DeserializeBytes, Error, Serialize, Sink, Size, Source,
    TlsByteVec, TlsByteVecU8, TlsVec, Within,
};
use tls_codec_cases::append_as;
use tls_codec_validate::{Rejected, Validate};
use tls_codec_views::{Encoded, Parted};

/// `NewSessionTicket` (RFC 8446, appendix B.3.4).
#[derive(PartialEq, Eq, Debug, Clone, Drop)]
pub struct NewSessionTicket {
    /// `uint32 ticket_lifetime;`
    pub ticket_lifetime: u32,
    /// `uint32 ticket_age_add;`
    pub ticket_age_add: u32,
    /// `opaque ticket_nonce<0..2^8-1>;`
    pub ticket_nonce: TlsByteVecU8,
    /// `opaque ticket<1..2^16-1>;`
    pub ticket: TlsByteVec<Within<u16, 1, 65535>>,
    /// `Extension extensions<0..65534>;`
    pub extensions: TlsVec<Within<u16, 0, 65534>, Extension>,
}

type Parts = (
    (u32, u32, TlsByteVecU8),
    (
        TlsByteVec<Within<u16, 1, 65535>>,
        TlsVec<Within<u16, 0, 65534>, Extension>,
    ),
);

impl Size for NewSessionTicket {
    ghost plain = { new_session_ticket_plain };

    ghost format = { new_session_ticket_format };

    fn tls_serialized_len(&self) -> usize {
        (
            ByRef3(
                &self.ticket_lifetime,
                &self.ticket_age_add,
                &self.ticket_nonce,
            ),
            ByRef2(&self.ticket, &self.extensions),
        )
            .tls_serialized_len()
    }

    ghost lawful = { new_session_ticket_meets };
}

impl Serialize for NewSessionTicket {
    fn tls_serialize<W: Sink>(&self, writer: &mut W) -> Result<usize, Error> {
        (
            ByRef3(
                &self.ticket_lifetime,
                &self.ticket_age_add,
                &self.ticket_nonce,
            ),
            ByRef2(&self.ticket, &self.extensions),
        )
            .tls_serialize(writer)
    }

    fn tls_serialize_into(&self, out: &mut Vec<u8>) -> Result<usize, Error> {
        append_as(
            self,
            &(
                ByRef3(
                    &self.ticket_lifetime,
                    &self.ticket_age_add,
                    &self.ticket_nonce,
                ),
                ByRef2(&self.ticket, &self.extensions),
            ),
            out,
        )
    }
}

impl Deserialize for NewSessionTicket {
    ghost names = { ⟦<Parts as Deserialize>⟧.names };

    fn tls_deserialize<R: Source>(alloc: Global, src: &mut R) -> Result<NewSessionTicket, Error> {
        let ((ticket_lifetime, ticket_age_add, ticket_nonce), (ticket, extensions)) =
            <Parts>::tls_deserialize(alloc, src)?;
        Ok(NewSessionTicket {
            ticket_lifetime,
            ticket_age_add,
            ticket_nonce,
            ticket,
            extensions,
        })
    }
}

impl DeserializeBytes for NewSessionTicket {
    ghost names = { ⟦<Parts as DeserializeBytes>⟧.names };

    fn tls_deserialize_bytes(
        alloc: Global,
        whole: &[u8],
    ) -> Result<(NewSessionTicket, &[u8]), Error> {
        let (((ticket_lifetime, ticket_age_add, ticket_nonce), (ticket, extensions)), rest) =
            <Parts>::tls_deserialize_bytes(alloc, whole)?;
        Ok((
            NewSessionTicket {
                ticket_lifetime,
                ticket_age_add,
                ticket_nonce,
                ticket,
                extensions,
            },
            rest,
        ))
    }
}

impl Validate for NewSessionTicket {
    ghost places = { ⟦<Parts as Validate>⟧.places };

    fn tls_validate_prefix(whole: &[u8]) -> Result<&[u8], Rejected<'_>> {
        <Parts>::tls_validate_prefix(whole)
    }

    fn tls_width() -> Option<usize> {
        <Parts>::tls_width()
    }
}

impl Parted for NewSessionTicket {
    type Parts = Parts;

    ghost as_parts = { λ bytes is. is };
}

/// The encoding of a [`NewSessionTicket`], split into its fields.
#[derive(Drop)]
pub struct NewSessionTicketView<'a> {
    /// `uint32 ticket_lifetime;`
    pub ticket_lifetime: Encoded<'a, u32>,
    /// `uint32 ticket_age_add;`
    pub ticket_age_add: Encoded<'a, u32>,
    /// `opaque ticket_nonce<0..2^8-1>;`
    pub ticket_nonce: Encoded<'a, TlsByteVecU8>,
    /// `opaque ticket<1..2^16-1>;`
    pub ticket: Encoded<'a, TlsByteVec<Within<u16, 1, 65535>>>,
    /// `Extension extensions<0..65534>;`
    pub extensions: Encoded<'a, TlsVec<Within<u16, 0, 65534>, Extension>>,
}

impl<'a> From<Encoded<'a, NewSessionTicket>> for NewSessionTicketView<'a> {
    ghost from_gives = { λ whole view. whole ≡ ((view.ticket_lifetime ++
        (view.ticket_age_add ++ view.ticket_nonce)) ++ (view.ticket ++ view.extensions)) };

    fn from(whole: Encoded<'a, NewSessionTicket>) -> NewSessionTicketView<'a> {
        let (parts_0, parts_1) = whole.parts().split();
        let (ticket_lifetime, ticket_age_add, ticket_nonce) = parts_0.split();
        let (ticket, extensions) = parts_1.split();
        NewSessionTicketView {
            ticket_lifetime,
            ticket_age_add,
            ticket_nonce,
            ticket,
            extensions,
        }
    }
}

/// Two values are equal if and only if all their fields are equal.
pub fn is_compared_by_its_fields()
    ensures { (x y : NewSessionTicket) →
        ⟦<NewSessionTicket as PartialEq>⟧.eq x y
        ≡ (⟦<u32 as PartialEq>⟧.eq x.ticket_lifetime y.ticket_lifetime
        && (⟦<u32 as PartialEq>⟧.eq x.ticket_age_add y.ticket_age_add
        && (⟦<TlsByteVecU8 as PartialEq>⟧.eq x.ticket_nonce y.ticket_nonce
        && (⟦<TlsByteVec<Within<u16, 1, 65535>> as PartialEq>⟧.eq x.ticket y.ticket
        && ⟦<TlsVec<Within<u16, 0, 65534>, Extension> as PartialEq>⟧.eq x.extensions
        y.extensions)))) }
{}
