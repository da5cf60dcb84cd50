//! [`KeyShare`], in the context of the message that has it.
ghost use Rattle.std.specs.Prelude.{◌≡◌};
ghost use Rattle.handshake_by_hand.specs.KeyShares.{key_share_format_for, key_share_meets_for, key_share_plain};

use crate::key_share_entry::KeyShareEntry;
use std::alloc::Global;
use tls_codec::{
    ByRef, DeserializeBytesFor, DeserializeFor, Error, SerializeFor, Sink, SizeFor, Source,
    TlsVecU16,
};
use tls_codec_cases::{Case, Chosen, Or, append_as_for, write_as_for};

/// The data of a `key_share` extension (RFC 8446, section 4.2.8), by the `HandshakeType` of its message. A HelloRetryRequest
/// is a `server_hello` on the wire: its context is `hello_retry_request_RESERVED`, 6.
#[derive(PartialEq, Eq, Debug, Clone, Drop)]
pub enum KeyShare {
    /// `KeyShareClientHello`: `KeyShareEntry client_shares<0..2^16-1>;`
    ClientHello(TlsVecU16<KeyShareEntry>),
    /// `KeyShareServerHello`: `KeyShareEntry server_share;`
    ServerHello(KeyShareEntry),
    /// `KeyShareHelloRetryRequest`: `NamedGroup selected_group;`
    HelloRetryRequest(u16),
}

type KeyShares = Chosen<
    Or<Case<1, TlsVecU16<KeyShareEntry>>, Or<Case<2, KeyShareEntry>, Case<6, u16>>>,
>;

type BorrowedKeyShares<'a> = Chosen<
    Or<
        Case<1, ByRef<'a, TlsVecU16<KeyShareEntry>>>,
        Or<Case<2, ByRef<'a, KeyShareEntry>>, Case<6, ByRef<'a, u16>>>,
    >,
>;

impl KeyShare {
    fn cases(&self) -> BorrowedKeyShares<'_>
        ensures { ⟦<BorrowedKeyShares<'static> as SizeFor<u8>>⟧.plain result
            ≡ key_share_plain self.now }
    {
        let cases = match self {
            KeyShare::ClientHello(client_shares) => Or::First(Case(ByRef(client_shares))),
            KeyShare::ServerHello(server_share) => Or::Second(Or::First(Case(ByRef(server_share)))),
            KeyShare::HelloRetryRequest(selected_group) => {
                Or::Second(Or::Second(Case(ByRef(selected_group))))
            }
        };
        Chosen(cases)
    }

    fn of(cases: KeyShares) -> KeyShare
        ensures { key_share_plain result ≡ ⟦<KeyShares as SizeFor<u8>>⟧.plain cases }
    {
        match cases.0 {
            Or::First(client_shares) => KeyShare::ClientHello(client_shares.0),
            Or::Second(Or::First(server_share)) => KeyShare::ServerHello(server_share.0),
            Or::Second(Or::Second(group)) => KeyShare::HelloRetryRequest(group.0),
        }
    }
}

impl SizeFor<u8> for KeyShare {
    ghost plain = { key_share_plain };

    ghost format_for = { key_share_format_for };

    fn tls_serialized_len_for(&self, msg_type: &u8) -> usize {
        self.cases().tls_serialized_len_for(msg_type)
    }

    ghost lawful = { key_share_meets_for };
}

/// `EncodingError("value does not fit its context")`: the shares are of another message.
impl SerializeFor<u8> for KeyShare {
    fn tls_serialize_for<W: Sink>(&self, msg_type: &u8, writer: &mut W) -> Result<usize, Error> {
        write_as_for(self, &self.cases(), msg_type, writer)
    }

    fn tls_serialize_into_for(&self, msg_type: &u8, out: &mut Vec<u8>) -> Result<usize, Error> {
        append_as_for(self, &self.cases(), msg_type, out)
    }
}

impl DeserializeFor<u8> for KeyShare {
    ghost names = { ⟦<KeyShares as DeserializeFor<u8>>⟧.names };

    /// `UnknownValue`: no message of the type has a `key_share`. Every other error is that of a
    /// field.
    fn tls_deserialize_for<R: Source>(
        msg_type: &u8,
        alloc: Global,
        src: &mut R,
    ) -> Result<KeyShare, Error> {
        let cases = <KeyShares>::tls_deserialize_for(msg_type, alloc, src)?;
        Ok(KeyShare::of(cases))
    }
}

impl DeserializeBytesFor<u8> for KeyShare {
    ghost names = { ⟦<KeyShares as DeserializeBytesFor<u8>>⟧.names };

    /// `UnknownValue`: no message of the type has a `key_share`. Every other error is that of a
    /// field.
    fn tls_deserialize_bytes_for<'a>(
        msg_type: &u8,
        alloc: Global,
        bytes: &'a [u8],
    ) -> Result<(KeyShare, &'a [u8]), Error> {
        let (cases, rest) = <KeyShares>::tls_deserialize_bytes_for(msg_type, alloc, bytes)?;
        Ok((KeyShare::of(cases), rest))
    }
}
