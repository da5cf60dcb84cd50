//! [`TreeHeadSignature`].
ghost use Rattle.std.specs.Prelude.{◌≡◌, ◌&&◌, ◌++◌};
ghost use Rattle.ct.specs.TreeHeadSignature.{tree_head_signature_format, tree_head_signature_meets, tree_head_signature_plain};
ghost use Rattle.ct.specs.declared.tree_head_signature.TreeHeadSignature.{TreeHeadSignature};

use crate::{SignatureTypeTreeHash, Version};
use std::alloc::Global;
use tls_codec::{
    ByRef2, ByRef3, Deserialize, DeserializeBytes, Error, Serialize, Sink, Size, Source,
};
use tls_codec_cases::append_as;
use tls_codec_validate::{Rejected, Validate};
use tls_codec_views::{Encoded, Parted};

/// `TreeHeadSignature` (RFC 6962, section 3.5).
#[derive(PartialEq, Eq, Debug, Clone, Drop)]
pub struct TreeHeadSignature {
    /// `Version version;`
    pub version: Version,
    /// `SignatureType signature_type = tree_hash;`
    pub signature_type: SignatureTypeTreeHash,
    /// `uint64 timestamp;`
    pub timestamp: u64,
    /// `uint64 tree_size;`
    pub tree_size: u64,
    /// `opaque sha256_root_hash[32];`
    pub sha256_root_hash: [u8; 32],
}

type Parts = ((Version, SignatureTypeTreeHash, u64), (u64, [u8; 32]));

impl Size for TreeHeadSignature {
    ghost plain = { tree_head_signature_plain };

    ghost format = { tree_head_signature_format };

    fn tls_serialized_len(&self) -> usize {
        (
            ByRef3(&self.version, &self.signature_type, &self.timestamp),
            ByRef2(&self.tree_size, &self.sha256_root_hash),
        )
            .tls_serialized_len()
    }

    ghost lawful = { tree_head_signature_meets };
}

impl Serialize for TreeHeadSignature {
    fn tls_serialize<W: Sink>(&self, writer: &mut W) -> Result<usize, Error> {
        (
            ByRef3(&self.version, &self.signature_type, &self.timestamp),
            ByRef2(&self.tree_size, &self.sha256_root_hash),
        )
            .tls_serialize(writer)
    }

    fn tls_serialize_into(&self, out: &mut Vec<u8>) -> Result<usize, Error> {
        append_as(
            self,
            &(
                ByRef3(&self.version, &self.signature_type, &self.timestamp),
                ByRef2(&self.tree_size, &self.sha256_root_hash),
            ),
            out,
        )
    }
}

impl Deserialize for TreeHeadSignature {
    ghost names = { ⟦<Parts as Deserialize>⟧.names };

    fn tls_deserialize<R: Source>(alloc: Global, src: &mut R) -> Result<TreeHeadSignature, Error> {
        let ((version, signature_type, timestamp), (tree_size, sha256_root_hash)) =
            <Parts>::tls_deserialize(alloc, src)?;
        Ok(TreeHeadSignature {
            version,
            signature_type,
            timestamp,
            tree_size,
            sha256_root_hash,
        })
    }
}

impl DeserializeBytes for TreeHeadSignature {
    ghost names = { ⟦<Parts as DeserializeBytes>⟧.names };

    fn tls_deserialize_bytes(
        alloc: Global,
        whole: &[u8],
    ) -> Result<(TreeHeadSignature, &[u8]), Error> {
        let (((version, signature_type, timestamp), (tree_size, sha256_root_hash)), rest) =
            <Parts>::tls_deserialize_bytes(alloc, whole)?;
        Ok((
            TreeHeadSignature {
                version,
                signature_type,
                timestamp,
                tree_size,
                sha256_root_hash,
            },
            rest,
        ))
    }
}

impl Validate for TreeHeadSignature {
    ghost places = { ⟦<Parts as Validate>⟧.places };

    fn tls_validate_prefix(whole: &[u8]) -> Result<&[u8], Rejected<'_>> {
        <Parts>::tls_validate_prefix(whole)
    }

    fn tls_width() -> Option<usize> {
        <Parts>::tls_width()
    }
}

impl Parted for TreeHeadSignature {
    type Parts = Parts;

    ghost as_parts = { λ bytes is. is };
}

/// The encoding of a [`TreeHeadSignature`], split into its fields.
#[derive(Drop)]
pub struct TreeHeadSignatureView<'a> {
    /// `Version version;`
    pub version: Encoded<'a, Version>,
    /// `SignatureType signature_type = tree_hash;`
    pub signature_type: Encoded<'a, SignatureTypeTreeHash>,
    /// `uint64 timestamp;`
    pub timestamp: Encoded<'a, u64>,
    /// `uint64 tree_size;`
    pub tree_size: Encoded<'a, u64>,
    /// `opaque sha256_root_hash[32];`
    pub sha256_root_hash: Encoded<'a, [u8; 32]>,
}

impl<'a> From<Encoded<'a, TreeHeadSignature>> for TreeHeadSignatureView<'a> {
    ghost from_gives = { λ whole view. whole ≡ ((view.version ++
        (view.signature_type ++ view.timestamp)) ++ (view.tree_size ++ view.sha256_root_hash)) };

    fn from(whole: Encoded<'a, TreeHeadSignature>) -> TreeHeadSignatureView<'a> {
        let (parts_0, parts_1) = whole.parts().split();
        let (version, signature_type, timestamp) = parts_0.split();
        let (tree_size, sha256_root_hash) = parts_1.split();
        TreeHeadSignatureView {
            version,
            signature_type,
            timestamp,
            tree_size,
            sha256_root_hash,
        }
    }
}

/// Two values are equal if and only if all their fields are equal.
pub fn is_compared_by_its_fields()
    ensures { (x y : TreeHeadSignature) →
        ⟦<TreeHeadSignature as PartialEq>⟧.eq x y
        ≡ (⟦<Version as PartialEq>⟧.eq x.version y.version
        && (⟦<SignatureTypeTreeHash as PartialEq>⟧.eq x.signature_type y.signature_type
        && (⟦<u64 as PartialEq>⟧.eq x.timestamp y.timestamp
        && (⟦<u64 as PartialEq>⟧.eq x.tree_size y.tree_size
        && ⟦<[u8; 32] as PartialEq>⟧.eq x.sha256_root_hash y.sha256_root_hash)))) }
{}
