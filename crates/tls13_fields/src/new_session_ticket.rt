//! The fields of `NewSessionTicket`.
ghost use Rattle.tls13.specs.NewSessionTicket.{new_session_ticket_format};
ghost use Rattle.tls_codec_outcome.specs.Fields.{Located};
ghost use Rattle.tls13_fields.specs.NewSessionTicketFields.{AreNewSessionTicketFields};

use tls_codec::{TlsVec, Within};
use tls_codec_outcome::{Content, Field, Locate, Span};
use tls13::Extension;

/// Where the fields of a `NewSessionTicket` are (RFC 8446, section 4.6.1). A span of `opaque` has the bytes
/// without their length.
#[repr(C)]
#[derive(Clone, Copy, PartialEq, Eq, Debug)]
pub struct NewSessionTicketFields {
    /// `uint32 ticket_lifetime;`
    pub ticket_lifetime: Span,
    /// `uint32 ticket_age_add;`
    pub ticket_age_add: Span,
    /// `opaque ticket_nonce<0..2^8-1>;`
    pub ticket_nonce: Span,
    /// `opaque ticket<1..2^16-1>;`
    pub ticket: Span,
    /// `Extension extensions<0..2^16-2>;` with its length
    pub extensions: Span,
}

type Parts = (
    (Field<u32>, Field<u32>, Content<u8>),
    (
        Content<Within<u16, 1, 65535>>,
        Field<TlsVec<Within<u16, 0, 65534>, Extension>>,
    ),
);

impl NewSessionTicketFields {
    /// The fields of the message that the bytes begin with. If they begin with none, the spans mean
    /// nothing.
    pub fn locate(bytes: &[u8]) -> NewSessionTicketFields
        ensures { Located new_session_ticket_format AreNewSessionTicketFields bytes.now result }
    {
        let (((ticket_lifetime, ticket_age_add, ticket_nonce), (ticket, extensions)), _) =
            <Parts>::locate(bytes, 0);
        NewSessionTicketFields {
            ticket_lifetime,
            ticket_age_add,
            ticket_nonce,
            ticket,
            extensions,
        }
    }
}
