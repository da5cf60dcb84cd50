//! [`Holds`] and [`By`]: parts on a tag that a field before them holds, as `select (PublicMessage.content.sender.sender_type)`
//! (RFC 8446, section 3.8; RFC 9420, section 6).
ghost use Rattle.std.specs.Prelude.{◌≡◌};
ghost use Rattle.tls_codec_grammar.specs.Tree.{Tree};

use std::alloc::Global;
use std::marker::PhantomData;
use tls_codec_base::{DeserializeBytesFor, DeserializeFor, SerializeFor, Size, SizeFor};
use tls_codec_wire::{Error, Sink, Source};

/// What holds a tag on which the selects of others are, as a `FramedContent` its content type (RFC 9420, section 6).
pub trait Holds<K: Size>: Size {
    // What the tag stands for, by what the whole does.
    ghost held: { Tree → Tree };

    /// The tag.
    fn held(&self) -> K
        ensures { K.plain result ≡ held (Self.plain self.now) };
}

/// A part in the context of a tag `K`, which its own context holds: the part before it, in a [`Then`](tls_codec_base::Then).
#[derive(PartialEq, Drop)]
pub struct By<K, T>(pub T, pub PhantomData<K>);

impl<K: Size + Drop, X: Holds<K>, T: SizeFor<K>> SizeFor<X> for By<K, T> {
    ghost plain = { λ v. T.plain v.0 };

    ghost format_for = { λ c. T.format_for (X.held c) };

    #[inline(always)]
    fn tls_serialized_len_for(&self, context: &X) -> usize {
        let tag = context.held();
        self.0.tls_serialized_len_for(&tag)
    }

    ghost lawful = { λ c. T.lawful (X.held c) };
}

impl<K: Size + Drop, X: Holds<K>, T: SerializeFor<K>> SerializeFor<X> for By<K, T> {
    #[inline(always)]
    fn tls_serialize_for<W: Sink>(&self, context: &X, writer: &mut W) -> Result<usize, Error> {
        let tag = context.held();
        self.0.tls_serialize_for(&tag, writer)
    }

    #[inline(always)]
    fn tls_serialize_into_for(&self, context: &X, out: &mut Vec<u8>) -> Result<usize, Error> {
        let tag = context.held();
        self.0.tls_serialize_into_for(&tag, out)
    }
}

impl<K: Size + Drop, X: Holds<K>, T: DeserializeFor<K>> DeserializeFor<X> for By<K, T> {
    ghost names = { λ c. T.names (X.held c) };

    #[inline(always)]
    fn tls_deserialize_for<R: Source>(
        context: &X,
        alloc: Global,
        src: &mut R,
    ) -> Result<By<K, T>, Error> {
        let tag = context.held();
        let value = T::tls_deserialize_for(&tag, alloc, src)?;
        Ok(By(value, PhantomData))
    }
}

impl<K: Size + Drop, X: Holds<K>, T: DeserializeBytesFor<K>> DeserializeBytesFor<X> for By<K, T> {
    ghost names = { λ c. T.names (X.held c) };

    #[inline(always)]
    fn tls_deserialize_bytes_for<'a>(
        context: &X,
        alloc: Global,
        bytes: &'a [u8],
    ) -> Result<(By<K, T>, &'a [u8]), Error> {
        let tag = context.held();
        let (value, rest) = T::tls_deserialize_bytes_for(&tag, alloc, bytes)?;
        Ok((By(value, PhantomData), rest))
    }
}
