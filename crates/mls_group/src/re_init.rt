//! [`ReInit`].
ghost use Rattle.std.specs.Prelude.{◌≡◌, ◌&&◌, ◌++◌};
ghost use Rattle.mls_group.specs.ReInit.{re_init_format, re_init_meets, re_init_plain};
ghost use Rattle.mls_group.specs.declared.re_init.ReInit.{ReInit};

use mls_tree::{CipherSuite, Extension, ProtocolVersion};
use std::alloc::Global;
use tls_codec::{
    ByRef2, Deserialize, DeserializeBytes, Error, Serialize, Sink, Size, Source, VLBytes,
};
use tls_codec_cases::append_as;
use tls_codec_validate::{Rejected, Validate};
use tls_codec_views::{Encoded, Parted};

/// `ReInit` (RFC 9420, section 12.1.5).
#[derive(PartialEq, Eq, Debug, Clone, Drop)]
pub struct ReInit {
    /// `opaque group_id<V>;`
    pub group_id: VLBytes,
    /// `ProtocolVersion version;`
    pub version: ProtocolVersion,
    /// `CipherSuite cipher_suite;`
    pub cipher_suite: CipherSuite,
    /// `Extension extensions<V>;`
    pub extensions: Vec<Extension>,
}

type Parts = ((VLBytes, ProtocolVersion), (CipherSuite, Vec<Extension>));

impl Size for ReInit {
    ghost plain = { re_init_plain };

    ghost format = { re_init_format };

    fn tls_serialized_len(&self) -> usize {
        (
            ByRef2(&self.group_id, &self.version),
            ByRef2(&self.cipher_suite, &self.extensions),
        )
            .tls_serialized_len()
    }

    ghost lawful = { re_init_meets };
}

impl Serialize for ReInit {
    fn tls_serialize<W: Sink>(&self, writer: &mut W) -> Result<usize, Error> {
        (
            ByRef2(&self.group_id, &self.version),
            ByRef2(&self.cipher_suite, &self.extensions),
        )
            .tls_serialize(writer)
    }

    fn tls_serialize_into(&self, out: &mut Vec<u8>) -> Result<usize, Error> {
        append_as(
            self,
            &(
                ByRef2(&self.group_id, &self.version),
                ByRef2(&self.cipher_suite, &self.extensions),
            ),
            out,
        )
    }
}

impl Deserialize for ReInit {
    ghost names = { ⟦<Parts as Deserialize>⟧.names };

    fn tls_deserialize<R: Source>(alloc: Global, src: &mut R) -> Result<ReInit, Error> {
        let ((group_id, version), (cipher_suite, extensions)) = <Parts>::tls_deserialize(
            alloc, src,
        )?;
        Ok(ReInit {
            group_id,
            version,
            cipher_suite,
            extensions,
        })
    }
}

impl DeserializeBytes for ReInit {
    ghost names = { ⟦<Parts as DeserializeBytes>⟧.names };

    fn tls_deserialize_bytes(alloc: Global, whole: &[u8]) -> Result<(ReInit, &[u8]), Error> {
        let (((group_id, version), (cipher_suite, extensions)), rest) =
            <Parts>::tls_deserialize_bytes(alloc, whole)?;
        Ok((
            ReInit {
                group_id,
                version,
                cipher_suite,
                extensions,
            },
            rest,
        ))
    }
}

impl Validate for ReInit {
    ghost places = { ⟦<Parts as Validate>⟧.places };

    fn tls_validate_prefix(whole: &[u8]) -> Result<&[u8], Rejected<'_>> {
        <Parts>::tls_validate_prefix(whole)
    }

    fn tls_width() -> Option<usize> {
        <Parts>::tls_width()
    }
}

impl Parted for ReInit {
    type Parts = Parts;

    ghost as_parts = { λ bytes is. is };
}

/// The encoding of a [`ReInit`], split into its fields.
#[derive(Drop)]
pub struct ReInitView<'a> {
    /// `opaque group_id<V>;`
    pub group_id: Encoded<'a, VLBytes>,
    /// `ProtocolVersion version;`
    pub version: Encoded<'a, ProtocolVersion>,
    /// `CipherSuite cipher_suite;`
    pub cipher_suite: Encoded<'a, CipherSuite>,
    /// `Extension extensions<V>;`
    pub extensions: Encoded<'a, Vec<Extension>>,
}

impl<'a> From<Encoded<'a, ReInit>> for ReInitView<'a> {
    ghost from_gives = { λ whole view. whole ≡ ((view.group_id ++ view.version) ++
        (view.cipher_suite ++ view.extensions)) };

    fn from(whole: Encoded<'a, ReInit>) -> ReInitView<'a> {
        let (parts_0, parts_1) = whole.parts().split();
        let (group_id, version) = parts_0.split();
        let (cipher_suite, extensions) = parts_1.split();
        ReInitView {
            group_id,
            version,
            cipher_suite,
            extensions,
        }
    }
}

/// Two values are equal if and only if all their fields are equal.
pub fn is_compared_by_its_fields()
    ensures { (x y : ReInit) →
        ⟦<ReInit as PartialEq>⟧.eq x y
        ≡ (⟦<VLBytes as PartialEq>⟧.eq x.group_id y.group_id
        && (⟦<ProtocolVersion as PartialEq>⟧.eq x.version y.version
        && (⟦<CipherSuite as PartialEq>⟧.eq x.cipher_suite y.cipher_suite
        && ⟦<Vec<Extension> as PartialEq>⟧.eq x.extensions y.extensions))) }
{}
