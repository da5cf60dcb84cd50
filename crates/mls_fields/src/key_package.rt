//! The fields of `KeyPackage`.
ghost use Rattle.mls_tree.specs.KeyPackage.{key_package_format};
ghost use Rattle.tls_codec_outcome.specs.Fields.{Located};
ghost use Rattle.mls_fields.specs.KeyPackageFields.{AreKeyPackageFields};

use mls_tree::{CipherSuite, Extension, LeafNode, ProtocolVersion};
use tls_codec::TlsVarInt;
use tls_codec_outcome::{Content, Field, Locate, Span};

/// Where the fields of a `KeyPackage` are (RFC 9420, section 10). A span of `opaque` has the bytes
/// without their length.
#[repr(C)]
#[derive(Clone, Copy, PartialEq, Eq, Debug)]
pub struct KeyPackageFields {
    /// `ProtocolVersion version;`
    pub version: Span,
    /// `CipherSuite cipher_suite;`
    pub cipher_suite: Span,
    /// `HPKEPublicKey init_key;`
    pub init_key: Span,
    /// `LeafNode leaf_node;`
    pub leaf_node: Span,
    /// `Extension extensions<V>;` with its length
    pub extensions: Span,
    /// `opaque signature<V>;`
    pub signature: Span,
}

type Parts = (
    (
        Field<ProtocolVersion>,
        Field<CipherSuite>,
        Content<TlsVarInt>,
    ),
    (Field<LeafNode>, Field<Vec<Extension>>, Content<TlsVarInt>),
);

impl KeyPackageFields {
    /// The fields of the message that the bytes begin with. If they begin with none, the spans mean
    /// nothing.
    pub fn locate(bytes: &[u8]) -> KeyPackageFields
        ensures { Located key_package_format AreKeyPackageFields bytes.now result }
    {
        let (((version, cipher_suite, init_key), (leaf_node, extensions, signature)), _) =
            <Parts>::locate(bytes, 0);
        KeyPackageFields {
            version,
            cipher_suite,
            init_key,
            leaf_node,
            extensions,
            signature,
        }
    }
}
