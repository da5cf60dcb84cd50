//! [`PostHandshakeAuth`].
ghost use Rattle.std.specs.Prelude.{◌≡◌, true};
ghost use Rattle.tls13.specs.PostHandshakeAuth.{post_handshake_auth_format, post_handshake_auth_meets, post_handshake_auth_plain};
ghost use Rattle.tls13.specs.declared.post_handshake_auth.PostHandshakeAuth.{PostHandshakeAuth};

use std::alloc::Global;
use tls_codec::{Deserialize, DeserializeBytes, Error, Serialize, Sink, Size, Source};
use tls_codec_cases::append_as;
use tls_codec_validate::{Rejected, Validate};

/// `PostHandshakeAuth` (RFC 8446, appendix B.3.2).
#[derive(PartialEq, Eq, Debug, Clone, Drop)]
pub struct PostHandshakeAuth {}

impl Size for PostHandshakeAuth {
    ghost plain = { post_handshake_auth_plain };

    ghost format = { post_handshake_auth_format };

    fn tls_serialized_len(&self) -> usize {
        ().tls_serialized_len()
    }

    ghost lawful = { post_handshake_auth_meets };
}

impl Serialize for PostHandshakeAuth {
    fn tls_serialize<W: Sink>(&self, writer: &mut W) -> Result<usize, Error> {
        ().tls_serialize(writer)
    }

    fn tls_serialize_into(&self, out: &mut Vec<u8>) -> Result<usize, Error> {
        append_as(self, &(), out)
    }
}

impl Deserialize for PostHandshakeAuth {
    ghost names = { ⟦<() as Deserialize>⟧.names };

    fn tls_deserialize<R: Source>(alloc: Global, src: &mut R) -> Result<PostHandshakeAuth, Error> {
        let () = <()>::tls_deserialize(alloc, src)?;
        Ok(PostHandshakeAuth {})
    }
}

impl DeserializeBytes for PostHandshakeAuth {
    ghost names = { ⟦<() as DeserializeBytes>⟧.names };

    fn tls_deserialize_bytes(
        alloc: Global,
        whole: &[u8],
    ) -> Result<(PostHandshakeAuth, &[u8]), Error> {
        let ((), rest) = <()>::tls_deserialize_bytes(alloc, whole)?;
        Ok((PostHandshakeAuth {}, rest))
    }
}

impl Validate for PostHandshakeAuth {
    ghost places = { ⟦<() as Validate>⟧.places };

    fn tls_validate_prefix(whole: &[u8]) -> Result<&[u8], Rejected<'_>> {
        <()>::tls_validate_prefix(whole)
    }

    fn tls_width() -> Option<usize> {
        <()>::tls_width()
    }
}

/// Two values are equal if and only if all their fields are equal.
pub fn is_compared_by_its_fields()
    ensures { (x y : PostHandshakeAuth) →
        ⟦<PostHandshakeAuth as PartialEq>⟧.eq x y
        ≡ true }
{}
