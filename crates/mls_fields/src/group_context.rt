//! The fields of `GroupContext`.
ghost use Rattle.mls_group.specs.GroupContext.{group_context_format};
ghost use Rattle.tls_codec_outcome.specs.Fields.{Located};
ghost use Rattle.mls_fields.specs.GroupContextFields.{AreGroupContextFields};

use mls_group::ProtocolVersionMls10;
use mls_tree::{CipherSuite, Extension};
use tls_codec::TlsVarInt;
use tls_codec_outcome::{Content, Field, Locate, Span};

/// Where the fields of a `GroupContext` are (RFC 9420, section 8.1). A span of `opaque` has the bytes
/// without their length.
#[repr(C)]
#[derive(Clone, Copy, PartialEq, Eq, Debug)]
pub struct GroupContextFields {
    /// `ProtocolVersion version = mls10;`
    pub version: Span,
    /// `CipherSuite cipher_suite;`
    pub cipher_suite: Span,
    /// `opaque group_id<V>;`
    pub group_id: Span,
    /// `uint64 epoch;`
    pub epoch: Span,
    /// `opaque tree_hash<V>;`
    pub tree_hash: Span,
    /// `opaque confirmed_transcript_hash<V>;`
    pub confirmed_transcript_hash: Span,
    /// `Extension extensions<V>;` with its length
    pub extensions: Span,
}

type Parts = (
    (
        Field<ProtocolVersionMls10>,
        Field<CipherSuite>,
        Content<TlsVarInt>,
    ),
    (Field<u64>, Content<TlsVarInt>),
    (Content<TlsVarInt>, Field<Vec<Extension>>),
);

impl GroupContextFields {
    /// The fields of the message that the bytes begin with. If they begin with none, the spans mean
    /// nothing.
    pub fn locate(bytes: &[u8]) -> GroupContextFields
        ensures { Located group_context_format AreGroupContextFields bytes.now result }
    {
        let (
            (
                (version, cipher_suite, group_id),
                (epoch, tree_hash),
                (confirmed_transcript_hash, extensions),
            ),
            _,
        ) = <Parts>::locate(bytes, 0);
        GroupContextFields {
            version,
            cipher_suite,
            group_id,
            epoch,
            tree_hash,
            confirmed_transcript_hash,
            extensions,
        }
    }
}
