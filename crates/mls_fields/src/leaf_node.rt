//! The fields of `LeafNode`.
ghost use Rattle.mls_tree.specs.LeafNode.{leaf_node_format};
ghost use Rattle.mls_tree.specs.LeafNodeOrigin.{leaf_node_origin_variants};
ghost use Rattle.tls_codec_outcome.specs.Fields.{Located};
ghost use Rattle.mls_fields.specs.LeafNodeFields.{AreLeafNodeFields};

use mls_tree::{Capabilities, Credential, Extension, LeafNodeOrigin};
use tls_codec::TlsVarInt;
use tls_codec_outcome::{Content, Field, Locate, Span, TagAndBody, TaggedEnum};

/// Where the fields of a `LeafNode` are (RFC 9420, section 7.2). A span of `opaque` has the bytes
/// without their length.
#[repr(C)]
#[derive(Clone, Copy, PartialEq, Eq, Debug)]
pub struct LeafNodeFields {
    /// `HPKEPublicKey encryption_key;`
    pub encryption_key: Span,
    /// `SignaturePublicKey signature_key;`
    pub signature_key: Span,
    /// `Credential credential;`
    pub credential: Span,
    /// `Capabilities capabilities;`
    pub capabilities: Span,
    /// `LeafNodeSource leaf_node_source;`
    pub leaf_node_source: Span,
    /// What its case has: a `Lifetime`, nothing, or a `parent_hash` with its length
    pub origin: Span,
    /// `Extension extensions<V>;` with its length
    pub extensions: Span,
    /// `opaque signature<V>;`
    pub signature: Span,
}

struct Origins {}

impl TaggedEnum for Origins {
    ghost TAG_LEN = { 1 };

    const TAG_LEN: usize = 1;

    type Enum = LeafNodeOrigin;

    ghost variants = { leaf_node_origin_variants };

    ghost is_tagged = { λ bytes v is. is };

    ghost has_tagged = { λ bytes v is. is };
}

type Parts = (
    (Content<TlsVarInt>, Content<TlsVarInt>, Field<Credential>),
    (Field<Capabilities>, TagAndBody<Origins>),
    (Field<Vec<Extension>>, Content<TlsVarInt>),
);

impl LeafNodeFields {
    /// The fields of the message that the bytes begin with. If they begin with none, the spans mean
    /// nothing.
    pub fn locate(bytes: &[u8]) -> LeafNodeFields
        ensures { Located leaf_node_format AreLeafNodeFields bytes.now result }
    {
        let (
            (
                (encryption_key, signature_key, credential),
                (capabilities, (leaf_node_source, origin)),
                (extensions, signature),
            ),
            _,
        ) = <Parts>::locate(bytes, 0);
        LeafNodeFields {
            encryption_key,
            signature_key,
            credential,
            capabilities,
            leaf_node_source,
            origin,
            extensions,
            signature,
        }
    }
}
