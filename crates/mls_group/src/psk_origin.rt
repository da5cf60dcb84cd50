//! [`PSKOrigin`].
ghost use Rattle.std.specs.Prelude.{◌≡◌, ◌&&◌, ◌++◌, IsTrue};
ghost use Rattle.tls_codec.specs.OwnMessages.{no_variant_names, no_variant_source_names, tagged_names, tagged_source_names, variant_names, variant_source_names};
ghost use Rattle.tls_codec_validate.specs.TaggedPlaces.{no_variant_places, tagged_places, variant_places};
ghost use Rattle.mls_group.specs.PSKOrigin.{psk_origin_format, psk_origin_meets, psk_origin_plain, psk_origin_tag, psk_origin_variants};
ghost use Rattle.mls_group.specs.declared.psk_origin.PSKOrigin.{PSKOrigin};
ghost use Rattle.tls_codec_views.specs.Views.{IsCase};
ghost use Rattle.mls_group.specs.declared.psk_origin.PSKOriginView.{PSKOriginView};

use crate::ResumptionPSKUsage;
use std::alloc::Global;
use tls_codec::{
    ByRef, ByRef2, Deserialize, DeserializeBytes, Error, Serialize, Sink, Size, Source, VLBytes,
    unknown_value,
};
use tls_codec_validate::{Rejected, Validate, split_u8};
use tls_codec_views::{Choice, Encoded};

const EXTERNAL: u8 = 1;

const RESUMPTION: u8 = 2;

/// `PSKType psktype` of `PreSharedKeyID` (RFC 9420, section 8.4), and what comes after
/// each.
#[derive(PartialEq, Eq, Debug, Clone, Drop)]
pub enum PSKOrigin {
    /// `case external: opaque psk_id<V>;`
    External(VLBytes),
    /// `case resumption:`
    Resumption {
        /// `ResumptionPSKUsage usage;`
        usage: ResumptionPSKUsage,
        /// `opaque psk_group_id<V>;`
        psk_group_id: VLBytes,
        /// `uint64 psk_epoch;`
        psk_epoch: u64,
    },
}

impl Size for PSKOrigin {
    ghost plain = { psk_origin_plain };

    ghost format = { psk_origin_format };

    fn tls_serialized_len(&self) -> usize {
        match self {
            PSKOrigin::External(psk_id) => (EXTERNAL, ByRef(psk_id)).tls_serialized_len(),
            PSKOrigin::Resumption {
                usage,
                psk_group_id,
                psk_epoch,
            } => (RESUMPTION, ByRef2(usage, psk_group_id), ByRef(psk_epoch)).tls_serialized_len(),
        }
    }

    ghost lawful = { psk_origin_meets };
}

impl Serialize for PSKOrigin {
    fn tls_serialize<W: Sink>(&self, writer: &mut W) -> Result<usize, Error> {
        match self {
            PSKOrigin::External(psk_id) => (EXTERNAL, ByRef(psk_id)).tls_serialize(writer),
            PSKOrigin::Resumption {
                usage,
                psk_group_id,
                psk_epoch,
            } => (RESUMPTION, ByRef2(usage, psk_group_id), ByRef(psk_epoch)).tls_serialize(writer),
        }
    }

    fn tls_serialize_into(&self, out: &mut Vec<u8>) -> Result<usize, Error> {
        match self {
            PSKOrigin::External(psk_id) => (EXTERNAL, ByRef(psk_id)).tls_serialize_into(out),
            PSKOrigin::Resumption {
                usage,
                psk_group_id,
                psk_epoch,
            } => (RESUMPTION, ByRef2(usage, psk_group_id), ByRef(psk_epoch)).tls_serialize_into(
                out,
            ),
        }
    }
}

impl Deserialize for PSKOrigin {
    ghost names = { tagged_source_names 1
        (variant_source_names 1 ⟦<VLBytes as Deserialize>⟧.names
        (variant_source_names 2 ⟦<((ResumptionPSKUsage, VLBytes), u64) as Deserialize>⟧.names
        no_variant_source_names)) };

    fn tls_deserialize<R: Source>(alloc: Global, src: &mut R) -> Result<PSKOrigin, Error> {
        let tag = u8::tls_deserialize(alloc, src)?;
        match tag {
            EXTERNAL => {
                let psk_id = VLBytes::tls_deserialize(alloc, src)?;
                Ok(PSKOrigin::External(psk_id))
            }
            RESUMPTION => {
                let ((usage, psk_group_id), psk_epoch) = <(
                    (ResumptionPSKUsage, VLBytes),
                    u64,
                )>::tls_deserialize(alloc, src)?;
                Ok(PSKOrigin::Resumption {
                    usage,
                    psk_group_id,
                    psk_epoch,
                })
            }
            _ => Err(unknown_value(u64::from(tag))),
        }
    }
}

impl DeserializeBytes for PSKOrigin {
    ghost names = { tagged_names 1
        (variant_names 1 ⟦<VLBytes as DeserializeBytes>⟧.names
        (variant_names 2 ⟦<((ResumptionPSKUsage, VLBytes), u64) as DeserializeBytes>⟧.names
        no_variant_names)) };

    fn tls_deserialize_bytes(alloc: Global, whole: &[u8]) -> Result<(PSKOrigin, &[u8]), Error> {
        let (tag, rest) = u8::tls_deserialize_bytes(alloc, whole)?;
        match tag {
            EXTERNAL => {
                let (psk_id, rest) = VLBytes::tls_deserialize_bytes(alloc, rest)?;
                Ok((PSKOrigin::External(psk_id), rest))
            }
            RESUMPTION => {
                let (((usage, psk_group_id), psk_epoch), rest) = <(
                    (ResumptionPSKUsage, VLBytes),
                    u64,
                )>::tls_deserialize_bytes(alloc, rest)?;
                Ok((
                    PSKOrigin::Resumption {
                        usage,
                        psk_group_id,
                        psk_epoch,
                    },
                    rest,
                ))
            }
            _ => Err(unknown_value(u64::from(tag))),
        }
    }
}

impl Validate for PSKOrigin {
    ghost places = { tagged_places 1
        (variant_places 1 ⟦<VLBytes as Validate>⟧.places
        (variant_places 2 ⟦<((ResumptionPSKUsage, VLBytes), u64) as Validate>⟧.places
        no_variant_places)) };

    fn tls_validate_prefix(whole: &[u8]) -> Result<&[u8], Rejected<'_>> {
        let (tag, rest) = split_u8(whole)?;
        match tag {
            EXTERNAL => {
                let behind = VLBytes::tls_validate_prefix(rest)?;
                Ok(behind)
            }
            RESUMPTION => {
                let behind = <((ResumptionPSKUsage, VLBytes), u64)>::tls_validate_prefix(rest)?;
                Ok(behind)
            }
            _ => Err(Rejected {
                error: unknown_value(u64::from(tag)),
                rest: whole,
            }),
        }
    }
}

impl Choice for PSKOrigin {
    type Tag = u8;

    ghost variants = { psk_origin_variants };

    ghost as_choice = { λ bytes is. is };
}

/// The encoding of a [`PSKOrigin`], split into its case and fields.
#[derive(Drop)]
pub enum PSKOriginView<'a> {
    /// `case external: opaque psk_id<V>;`
    External(Encoded<'a, VLBytes>),
    /// `case resumption:`
    Resumption {
        /// `ResumptionPSKUsage usage;`
        usage: Encoded<'a, ResumptionPSKUsage>,
        /// `opaque psk_group_id<V>;`
        psk_group_id: Encoded<'a, VLBytes>,
        /// `uint64 psk_epoch;`
        psk_epoch: Encoded<'a, u64>,
    },
}

impl<'a> From<Encoded<'a, PSKOrigin>> for PSKOriginView<'a> {
    ghost from_gives = { λ whole view. elim view as (λ v. Type 0) [
      | PSKOriginView.External a0 ↦ IsCase 1 1 whole a0
      | PSKOriginView.Resumption a0 a1 a2 ↦ IsCase 1 2 whole ((a0 ++ a1) ++ a2)
    ] };

    fn from(whole: Encoded<'a, PSKOrigin>) -> PSKOriginView<'a> {
        let (tag, parts) = whole.case();
        match tag {
            1 => PSKOriginView::External(Encoded::from_only_part(parts)),
            2 => {
                let (parts_0, psk_epoch) = Encoded::<
                    ((ResumptionPSKUsage, VLBytes), u64),
                >::from_proved(parts).split();
                let (usage, psk_group_id) = parts_0.split();
                PSKOriginView::Resumption {
                    usage,
                    psk_group_id,
                    psk_epoch,
                }
            }
            _ => unreachable!(),
        }
    }
}

impl PSKOrigin {
    /// The tag of this value's case.
    pub fn psktype(&self) -> u8
        ensures { result ≡ psk_origin_tag self.now }
    {
        match self {
            PSKOrigin::External(_) => 1,
            PSKOrigin::Resumption { .. } => 2,
        }
    }
}

/// The case `external` with this content.
impl From<VLBytes> for PSKOrigin {
    ghost from_gives = { λ content value. value ≡ PSKOrigin.External content };

    fn from(content: VLBytes) -> PSKOrigin {
        PSKOrigin::External(content)
    }
}

/// Two values are equal if and only if they have the same case and all their fields are equal.
pub fn is_compared_by_its_case()
    ensures tag { (x y : PSKOrigin) →
        IsTrue (⟦<PSKOrigin as PartialEq>⟧.eq x y) → psk_origin_tag x ≡ psk_origin_tag y }
    ensures case_1 { (a0 b0 : _) →
        ⟦<PSKOrigin as PartialEq>⟧.eq (PSKOrigin.External a0) (PSKOrigin.External b0)
        ≡ ⟦<VLBytes as PartialEq>⟧.eq a0 b0 }
    ensures case_2 { (a0 a1 a2 b0 b1 b2 : _) →
        ⟦<PSKOrigin as PartialEq>⟧.eq (PSKOrigin.Resumption a0 a1 a2)
        (PSKOrigin.Resumption b0 b1 b2)
        ≡ (⟦<ResumptionPSKUsage as PartialEq>⟧.eq a0 b0
        && (⟦<VLBytes as PartialEq>⟧.eq a1 b1
        && ⟦<u64 as PartialEq>⟧.eq a2 b2)) }
{}
