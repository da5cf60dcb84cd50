//! [`KeyUpdateRequest`], all that a `KeyUpdate` has.
ghost use Rattle.std.specs.Prelude.{◌≡◌};
ghost use Rattle.handshake_by_hand.specs.Bodies.{key_update_request_format, key_update_request_meets, key_update_request_plain};

use std::alloc::Global;
use std::marker::PhantomData;
use tls_codec::{Deserialize, DeserializeBytes, Error, Serialize, Sink, Size, Source};
use tls_codec_cases::{Case, Or, Tagged, append_as, write_as};

/// `KeyUpdateRequest` (RFC 8446, section 4.6.3).
#[derive(PartialEq, Eq, Debug, Clone, Copy)]
pub enum KeyUpdateRequest {
    /// `update_not_requested(0)`
    UpdateNotRequested,
    /// `update_requested(1)`
    UpdateRequested,
}

type Requests = Tagged<u8, Or<Case<0, ()>, Case<1, ()>>>;

impl KeyUpdateRequest {
    fn cases(&self) -> Requests
        ensures { ⟦<Requests as Size>⟧.plain result ≡ key_update_request_plain self.now }
    {
        let cases = match self {
            KeyUpdateRequest::UpdateNotRequested => Or::First(Case(())),
            KeyUpdateRequest::UpdateRequested => Or::Second(Case(())),
        };
        Tagged(cases, PhantomData)
    }

    fn of(cases: Requests) -> KeyUpdateRequest
        ensures { key_update_request_plain result ≡ ⟦<Requests as Size>⟧.plain cases }
    {
        match cases.0 {
            Or::First(_) => KeyUpdateRequest::UpdateNotRequested,
            Or::Second(_) => KeyUpdateRequest::UpdateRequested,
        }
    }
}

impl Size for KeyUpdateRequest {
    ghost plain = { key_update_request_plain };

    ghost format = { key_update_request_format };

    fn tls_serialized_len(&self) -> usize {
        self.cases().tls_serialized_len()
    }

    ghost lawful = { key_update_request_meets };
}

impl Serialize for KeyUpdateRequest {
    fn tls_serialize<W: Sink>(&self, writer: &mut W) -> Result<usize, Error> {
        write_as(self, &self.cases(), writer)
    }

    fn tls_serialize_into(&self, out: &mut Vec<u8>) -> Result<usize, Error> {
        append_as(self, &self.cases(), out)
    }
}

impl Deserialize for KeyUpdateRequest {
    ghost names = { ⟦<Requests as Deserialize>⟧.names };

    /// `UnknownValue`: no request has the number.
    fn tls_deserialize<R: Source>(alloc: Global, src: &mut R) -> Result<KeyUpdateRequest, Error> {
        let cases = <Requests>::tls_deserialize(alloc, src)?;
        Ok(KeyUpdateRequest::of(cases))
    }
}

impl DeserializeBytes for KeyUpdateRequest {
    ghost names = { ⟦<Requests as DeserializeBytes>⟧.names };

    /// `UnknownValue`: no request has the number.
    fn tls_deserialize_bytes(
        alloc: Global,
        whole: &[u8],
    ) -> Result<(KeyUpdateRequest, &[u8]), Error> {
        let (cases, rest) = <Requests>::tls_deserialize_bytes(alloc, whole)?;
        Ok((KeyUpdateRequest::of(cases), rest))
    }
}
