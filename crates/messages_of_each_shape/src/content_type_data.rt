//! [`ContentTypeData`].
ghost use Rattle.std.specs.Prelude.{◌≡◌, ◌&&◌, ◌++◌, IsTrue};
ghost use Rattle.tls_codec.specs.OwnMessages.{no_variant_names, no_variant_source_names, tagged_names, tagged_source_names, variant_names, variant_source_names};
ghost use Rattle.tls_codec_validate.specs.TaggedPlaces.{no_variant_places, tagged_places, variant_places};
ghost use Rattle.messages_of_each_shape.specs.ContentTypeData.{content_type_data_format, content_type_data_meets, content_type_data_plain, content_type_data_tag, content_type_data_variants};
ghost use Rattle.messages_of_each_shape.specs.declared.content_type_data.ContentTypeData.{ContentTypeData};
ghost use Rattle.tls_codec_views.specs.Views.{IsCase};
ghost use Rattle.messages_of_each_shape.specs.declared.content_type_data.ContentTypeDataView.{ContentTypeDataView};

use std::alloc::Global;
use tls_codec::{
    ByRef, ByRef2, Deserialize, DeserializeBytes, Error, Serialize, Sink, Size, Source, VLBytes,
    unknown_value,
};
use tls_codec_validate::{Rejected, Validate, split_u8};
use tls_codec_views::{Choice, Encoded};

const APPLICATION: u8 = 1;

const PROPOSAL: u8 = 2;

/// `ContentType content_type` of `Framed`, and what comes after each.
#[derive(PartialEq, Eq, Debug, Clone, Drop)]
pub enum ContentTypeData {
    /// `case application:`
    Application {
        /// `opaque authenticated_data<V>;`
        authenticated_data: VLBytes,
        /// `opaque application_data<V>;`
        application_data: VLBytes,
    },
    /// `case proposal:`
    Proposal {
        /// `opaque authenticated_data<V>;`
        authenticated_data: VLBytes,
        /// `opaque proposal<V>;`
        proposal: VLBytes,
        /// `uint8 level;`
        level: u8,
    },
}

impl Size for ContentTypeData {
    ghost plain = { content_type_data_plain };

    ghost format = { content_type_data_format };

    fn tls_serialized_len(&self) -> usize {
        match self {
            ContentTypeData::Application {
                authenticated_data,
                application_data,
            } => (
                APPLICATION,
                ByRef(authenticated_data),
                ByRef(application_data),
            )
                .tls_serialized_len(),
            ContentTypeData::Proposal {
                authenticated_data,
                proposal,
                level,
            } => (
                PROPOSAL,
                ByRef2(authenticated_data, proposal),
                ByRef(level),
            ).tls_serialized_len(),
        }
    }

    ghost lawful = { content_type_data_meets };
}

impl Serialize for ContentTypeData {
    fn tls_serialize<W: Sink>(&self, writer: &mut W) -> Result<usize, Error> {
        match self {
            ContentTypeData::Application {
                authenticated_data,
                application_data,
            } => (
                APPLICATION,
                ByRef(authenticated_data),
                ByRef(application_data),
            )
                .tls_serialize(writer),
            ContentTypeData::Proposal {
                authenticated_data,
                proposal,
                level,
            } => (PROPOSAL, ByRef2(authenticated_data, proposal), ByRef(level)).tls_serialize(
                writer,
            ),
        }
    }

    fn tls_serialize_into(&self, out: &mut Vec<u8>) -> Result<usize, Error> {
        match self {
            ContentTypeData::Application {
                authenticated_data,
                application_data,
            } => (
                APPLICATION,
                ByRef(authenticated_data),
                ByRef(application_data),
            )
                .tls_serialize_into(out),
            ContentTypeData::Proposal {
                authenticated_data,
                proposal,
                level,
            } => (PROPOSAL, ByRef2(authenticated_data, proposal), ByRef(level)).tls_serialize_into(
                out,
            ),
        }
    }
}

impl Deserialize for ContentTypeData {
    ghost names = { tagged_source_names 1
        (variant_source_names 1 ⟦<(VLBytes, VLBytes) as Deserialize>⟧.names
        (variant_source_names 2 ⟦<((VLBytes, VLBytes), u8) as Deserialize>⟧.names
        no_variant_source_names)) };

    fn tls_deserialize<R: Source>(alloc: Global, src: &mut R) -> Result<ContentTypeData, Error> {
        let tag = u8::tls_deserialize(alloc, src)?;
        match tag {
            APPLICATION => {
                let (authenticated_data, application_data) = <(VLBytes, VLBytes)>::tls_deserialize(
                    alloc, src,
                )?;
                Ok(ContentTypeData::Application {
                    authenticated_data,
                    application_data,
                })
            }
            PROPOSAL => {
                let ((authenticated_data, proposal), level) = <(
                    (VLBytes, VLBytes),
                    u8,
                )>::tls_deserialize(alloc, src)?;
                Ok(ContentTypeData::Proposal {
                    authenticated_data,
                    proposal,
                    level,
                })
            }
            _ => Err(unknown_value(u64::from(tag))),
        }
    }
}

impl DeserializeBytes for ContentTypeData {
    ghost names = { tagged_names 1
        (variant_names 1 ⟦<(VLBytes, VLBytes) as DeserializeBytes>⟧.names
        (variant_names 2 ⟦<((VLBytes, VLBytes), u8) as DeserializeBytes>⟧.names
        no_variant_names)) };

    fn tls_deserialize_bytes(
        alloc: Global,
        whole: &[u8],
    ) -> Result<(ContentTypeData, &[u8]), Error> {
        let (tag, rest) = u8::tls_deserialize_bytes(alloc, whole)?;
        match tag {
            APPLICATION => {
                let ((authenticated_data, application_data), rest) = <(
                    VLBytes,
                    VLBytes,
                )>::tls_deserialize_bytes(alloc, rest)?;
                Ok((
                    ContentTypeData::Application {
                        authenticated_data,
                        application_data,
                    },
                    rest,
                ))
            }
            PROPOSAL => {
                let (((authenticated_data, proposal), level), rest) = <(
                    (VLBytes, VLBytes),
                    u8,
                )>::tls_deserialize_bytes(alloc, rest)?;
                Ok((
                    ContentTypeData::Proposal {
                        authenticated_data,
                        proposal,
                        level,
                    },
                    rest,
                ))
            }
            _ => Err(unknown_value(u64::from(tag))),
        }
    }
}

impl Validate for ContentTypeData {
    ghost places = { tagged_places 1
        (variant_places 1 ⟦<(VLBytes, VLBytes) as Validate>⟧.places
        (variant_places 2 ⟦<((VLBytes, VLBytes), u8) as Validate>⟧.places
        no_variant_places)) };

    fn tls_validate_prefix(whole: &[u8]) -> Result<&[u8], Rejected<'_>> {
        let (tag, rest) = split_u8(whole)?;
        match tag {
            APPLICATION => {
                let behind = <(VLBytes, VLBytes)>::tls_validate_prefix(rest)?;
                Ok(behind)
            }
            PROPOSAL => {
                let behind = <((VLBytes, VLBytes), u8)>::tls_validate_prefix(rest)?;
                Ok(behind)
            }
            _ => Err(Rejected {
                error: unknown_value(u64::from(tag)),
                rest: whole,
            }),
        }
    }
}

impl Choice for ContentTypeData {
    type Tag = u8;

    ghost variants = { content_type_data_variants };

    ghost as_choice = { λ bytes is. is };
}

/// The encoding of a [`ContentTypeData`], split into its case and fields.
#[derive(Drop)]
pub enum ContentTypeDataView<'a> {
    /// `case application:`
    Application {
        /// `opaque authenticated_data<V>;`
        authenticated_data: Encoded<'a, VLBytes>,
        /// `opaque application_data<V>;`
        application_data: Encoded<'a, VLBytes>,
    },
    /// `case proposal:`
    Proposal {
        /// `opaque authenticated_data<V>;`
        authenticated_data: Encoded<'a, VLBytes>,
        /// `opaque proposal<V>;`
        proposal: Encoded<'a, VLBytes>,
        /// `uint8 level;`
        level: Encoded<'a, u8>,
    },
}

impl<'a> From<Encoded<'a, ContentTypeData>> for ContentTypeDataView<'a> {
    ghost from_gives = { λ whole view. elim view as (λ v. Type 0) [
      | ContentTypeDataView.Application a0 a1 ↦ IsCase 1 1 whole (a0 ++ a1)
      | ContentTypeDataView.Proposal a0 a1 a2 ↦ IsCase 1 2 whole ((a0 ++ a1) ++ a2)
    ] };

    fn from(whole: Encoded<'a, ContentTypeData>) -> ContentTypeDataView<'a> {
        let (tag, parts) = whole.case();
        match tag {
            1 => {
                let (authenticated_data, application_data) = Encoded::<
                    (VLBytes, VLBytes),
                >::from_proved(parts).split();
                ContentTypeDataView::Application {
                    authenticated_data,
                    application_data,
                }
            }
            2 => {
                let (parts_0, level) = Encoded::<((VLBytes, VLBytes), u8)>::from_proved(
                    parts,
                ).split();
                let (authenticated_data, proposal) = parts_0.split();
                ContentTypeDataView::Proposal {
                    authenticated_data,
                    proposal,
                    level,
                }
            }
            _ => unreachable!(),
        }
    }
}

impl ContentTypeData {
    /// The tag of this value's case.
    pub fn content_type(&self) -> u8
        ensures { result ≡ content_type_data_tag self.now }
    {
        match self {
            ContentTypeData::Application { .. } => 1,
            ContentTypeData::Proposal { .. } => 2,
        }
    }
}

/// Two values are equal if and only if they have the same case and all their fields are equal.
pub fn is_compared_by_its_case()
    ensures tag { (x y : ContentTypeData) →
        IsTrue (⟦<ContentTypeData as PartialEq>⟧.eq x y)
        → content_type_data_tag x ≡ content_type_data_tag y }
    ensures case_1 { (a0 a1 b0 b1 : _) →
        ⟦<ContentTypeData as PartialEq>⟧.eq (ContentTypeData.Application a0 a1)
        (ContentTypeData.Application b0 b1)
        ≡ (⟦<VLBytes as PartialEq>⟧.eq a0 b0
        && ⟦<VLBytes as PartialEq>⟧.eq a1 b1) }
    ensures case_2 { (a0 a1 a2 b0 b1 b2 : _) →
        ⟦<ContentTypeData as PartialEq>⟧.eq (ContentTypeData.Proposal a0 a1 a2)
        (ContentTypeData.Proposal b0 b1 b2)
        ≡ (⟦<VLBytes as PartialEq>⟧.eq a0 b0
        && (⟦<VLBytes as PartialEq>⟧.eq a1 b1
        && ⟦<u8 as PartialEq>⟧.eq a2 b2)) }
{}
