//! [`MLSMessageBody`].
ghost use Rattle.std.specs.Prelude.{◌≡◌, IsTrue};
ghost use Rattle.tls_codec.specs.OwnMessages.{no_variant_names, no_variant_source_names, tagged_names, tagged_source_names, variant_names, variant_source_names};
ghost use Rattle.tls_codec_validate.specs.TaggedPlaces.{no_variant_places, tagged_places, variant_places};
ghost use Rattle.mls.specs.MLSMessageBody.{mls_message_body_format, mls_message_body_meets, mls_message_body_plain, mls_message_body_tag, mls_message_body_variants};
ghost use Rattle.mls.specs.declared.mls_message_body.MLSMessageBody.{MLSMessageBody};
ghost use Rattle.tls_codec_views.specs.Views.{IsCase};
ghost use Rattle.mls.specs.declared.mls_message_body.MLSMessageBodyView.{MLSMessageBodyView};

use crate::{PrivateMessage, PublicMessage, WireFormat};
use mls_group::{GroupInfo, Welcome};
use mls_tree::KeyPackage;
use std::alloc::Global;
use tls_codec::{
    ByRef, Deserialize, DeserializeBytes, Error, Serialize, Sink, Size, Source, unknown_value,
};
use tls_codec_validate::{Rejected, Validate, split_u16};
use tls_codec_views::{Choice, Encoded};

const MLS_PUBLIC_MESSAGE: u16 = 1;

const MLS_PRIVATE_MESSAGE: u16 = 2;

const MLS_WELCOME: u16 = 3;

const MLS_GROUP_INFO: u16 = 4;

const MLS_KEY_PACKAGE: u16 = 5;

/// `WireFormat wire_format` of `MLSMessage` (RFC 9420, section 6), and what comes after
/// each.
#[derive(PartialEq, Eq, Debug, Clone, Drop)]
pub enum MLSMessageBody {
    /// `case mls_public_message: PublicMessage public_message;`
    MlsPublicMessage(PublicMessage),
    /// `case mls_private_message: PrivateMessage private_message;`
    MlsPrivateMessage(PrivateMessage),
    /// `case mls_welcome: Welcome welcome;`
    MlsWelcome(Welcome),
    /// `case mls_group_info: GroupInfo group_info;`
    MlsGroupInfo(GroupInfo),
    /// `case mls_key_package: KeyPackage key_package;`
    MlsKeyPackage(KeyPackage),
}

impl Size for MLSMessageBody {
    ghost plain = { mls_message_body_plain };

    ghost format = { mls_message_body_format };

    fn tls_serialized_len(&self) -> usize {
        match self {
            MLSMessageBody::MlsPublicMessage(public_message) => (
                MLS_PUBLIC_MESSAGE,
                ByRef(public_message),
            ).tls_serialized_len(),
            MLSMessageBody::MlsPrivateMessage(private_message) => (
                MLS_PRIVATE_MESSAGE,
                ByRef(private_message),
            ).tls_serialized_len(),
            MLSMessageBody::MlsWelcome(welcome) => (
                MLS_WELCOME,
                ByRef(welcome),
            ).tls_serialized_len(),
            MLSMessageBody::MlsGroupInfo(group_info) => (
                MLS_GROUP_INFO,
                ByRef(group_info),
            ).tls_serialized_len(),
            MLSMessageBody::MlsKeyPackage(key_package) => (
                MLS_KEY_PACKAGE,
                ByRef(key_package),
            ).tls_serialized_len(),
        }
    }

    ghost lawful = { mls_message_body_meets };
}

impl Serialize for MLSMessageBody {
    fn tls_serialize<W: Sink>(&self, writer: &mut W) -> Result<usize, Error> {
        match self {
            MLSMessageBody::MlsPublicMessage(public_message) => (
                MLS_PUBLIC_MESSAGE,
                ByRef(public_message),
            ).tls_serialize(writer),
            MLSMessageBody::MlsPrivateMessage(private_message) => (
                MLS_PRIVATE_MESSAGE,
                ByRef(private_message),
            ).tls_serialize(writer),
            MLSMessageBody::MlsWelcome(welcome) => (MLS_WELCOME, ByRef(welcome)).tls_serialize(
                writer,
            ),
            MLSMessageBody::MlsGroupInfo(group_info) => (
                MLS_GROUP_INFO,
                ByRef(group_info),
            ).tls_serialize(writer),
            MLSMessageBody::MlsKeyPackage(key_package) => (
                MLS_KEY_PACKAGE,
                ByRef(key_package),
            ).tls_serialize(writer),
        }
    }

    fn tls_serialize_into(&self, out: &mut Vec<u8>) -> Result<usize, Error> {
        match self {
            MLSMessageBody::MlsPublicMessage(public_message) => (
                MLS_PUBLIC_MESSAGE,
                ByRef(public_message),
            ).tls_serialize_into(out),
            MLSMessageBody::MlsPrivateMessage(private_message) => (
                MLS_PRIVATE_MESSAGE,
                ByRef(private_message),
            ).tls_serialize_into(out),
            MLSMessageBody::MlsWelcome(welcome) => (MLS_WELCOME, ByRef(welcome)).tls_serialize_into(
                out,
            ),
            MLSMessageBody::MlsGroupInfo(group_info) => (
                MLS_GROUP_INFO,
                ByRef(group_info),
            ).tls_serialize_into(out),
            MLSMessageBody::MlsKeyPackage(key_package) => (
                MLS_KEY_PACKAGE,
                ByRef(key_package),
            ).tls_serialize_into(out),
        }
    }
}

impl Deserialize for MLSMessageBody {
    ghost names = { tagged_source_names 2
        (variant_source_names 1 ⟦<PublicMessage as Deserialize>⟧.names
        (variant_source_names 2 ⟦<PrivateMessage as Deserialize>⟧.names
        (variant_source_names 3 ⟦<Welcome as Deserialize>⟧.names
        (variant_source_names 4 ⟦<GroupInfo as Deserialize>⟧.names
        (variant_source_names 5 ⟦<KeyPackage as Deserialize>⟧.names
        no_variant_source_names))))) };

    fn tls_deserialize<R: Source>(alloc: Global, src: &mut R) -> Result<MLSMessageBody, Error> {
        let tag = u16::tls_deserialize(alloc, src)?;
        match tag {
            MLS_PUBLIC_MESSAGE => {
                let public_message = PublicMessage::tls_deserialize(alloc, src)?;
                Ok(MLSMessageBody::MlsPublicMessage(public_message))
            }
            MLS_PRIVATE_MESSAGE => {
                let private_message = PrivateMessage::tls_deserialize(alloc, src)?;
                Ok(MLSMessageBody::MlsPrivateMessage(private_message))
            }
            MLS_WELCOME => {
                let welcome = Welcome::tls_deserialize(alloc, src)?;
                Ok(MLSMessageBody::MlsWelcome(welcome))
            }
            MLS_GROUP_INFO => {
                let group_info = GroupInfo::tls_deserialize(alloc, src)?;
                Ok(MLSMessageBody::MlsGroupInfo(group_info))
            }
            MLS_KEY_PACKAGE => {
                let key_package = KeyPackage::tls_deserialize(alloc, src)?;
                Ok(MLSMessageBody::MlsKeyPackage(key_package))
            }
            _ => Err(unknown_value(u64::from(tag))),
        }
    }
}

impl DeserializeBytes for MLSMessageBody {
    ghost names = { tagged_names 2
        (variant_names 1 ⟦<PublicMessage as DeserializeBytes>⟧.names
        (variant_names 2 ⟦<PrivateMessage as DeserializeBytes>⟧.names
        (variant_names 3 ⟦<Welcome as DeserializeBytes>⟧.names
        (variant_names 4 ⟦<GroupInfo as DeserializeBytes>⟧.names
        (variant_names 5 ⟦<KeyPackage as DeserializeBytes>⟧.names
        no_variant_names))))) };

    fn tls_deserialize_bytes(
        alloc: Global,
        whole: &[u8],
    ) -> Result<(MLSMessageBody, &[u8]), Error> {
        let (tag, rest) = u16::tls_deserialize_bytes(alloc, whole)?;
        match tag {
            MLS_PUBLIC_MESSAGE => {
                let (public_message, rest) = PublicMessage::tls_deserialize_bytes(alloc, rest)?;
                Ok((MLSMessageBody::MlsPublicMessage(public_message), rest))
            }
            MLS_PRIVATE_MESSAGE => {
                let (private_message, rest) = PrivateMessage::tls_deserialize_bytes(alloc, rest)?;
                Ok((MLSMessageBody::MlsPrivateMessage(private_message), rest))
            }
            MLS_WELCOME => {
                let (welcome, rest) = Welcome::tls_deserialize_bytes(alloc, rest)?;
                Ok((MLSMessageBody::MlsWelcome(welcome), rest))
            }
            MLS_GROUP_INFO => {
                let (group_info, rest) = GroupInfo::tls_deserialize_bytes(alloc, rest)?;
                Ok((MLSMessageBody::MlsGroupInfo(group_info), rest))
            }
            MLS_KEY_PACKAGE => {
                let (key_package, rest) = KeyPackage::tls_deserialize_bytes(alloc, rest)?;
                Ok((MLSMessageBody::MlsKeyPackage(key_package), rest))
            }
            _ => Err(unknown_value(u64::from(tag))),
        }
    }
}

impl Validate for MLSMessageBody {
    ghost places = { tagged_places 2
        (variant_places 1 ⟦<PublicMessage as Validate>⟧.places
        (variant_places 2 ⟦<PrivateMessage as Validate>⟧.places
        (variant_places 3 ⟦<Welcome as Validate>⟧.places
        (variant_places 4 ⟦<GroupInfo as Validate>⟧.places
        (variant_places 5 ⟦<KeyPackage as Validate>⟧.places
        no_variant_places))))) };

    fn tls_validate_prefix(whole: &[u8]) -> Result<&[u8], Rejected<'_>> {
        let (tag, rest) = split_u16(whole)?;
        match tag {
            MLS_PUBLIC_MESSAGE => {
                let behind = PublicMessage::tls_validate_prefix(rest)?;
                Ok(behind)
            }
            MLS_PRIVATE_MESSAGE => {
                let behind = PrivateMessage::tls_validate_prefix(rest)?;
                Ok(behind)
            }
            MLS_WELCOME => {
                let behind = Welcome::tls_validate_prefix(rest)?;
                Ok(behind)
            }
            MLS_GROUP_INFO => {
                let behind = GroupInfo::tls_validate_prefix(rest)?;
                Ok(behind)
            }
            MLS_KEY_PACKAGE => {
                let behind = KeyPackage::tls_validate_prefix(rest)?;
                Ok(behind)
            }
            _ => Err(Rejected {
                error: unknown_value(u64::from(tag)),
                rest: whole,
            }),
        }
    }
}

impl Choice for MLSMessageBody {
    type Tag = u16;

    ghost variants = { mls_message_body_variants };

    ghost as_choice = { λ bytes is. is };
}

/// The encoding of a [`MLSMessageBody`], split into its case and fields.
#[derive(Drop)]
pub enum MLSMessageBodyView<'a> {
    /// `case mls_public_message: PublicMessage public_message;`
    MlsPublicMessage(Encoded<'a, PublicMessage>),
    /// `case mls_private_message: PrivateMessage private_message;`
    MlsPrivateMessage(Encoded<'a, PrivateMessage>),
    /// `case mls_welcome: Welcome welcome;`
    MlsWelcome(Encoded<'a, Welcome>),
    /// `case mls_group_info: GroupInfo group_info;`
    MlsGroupInfo(Encoded<'a, GroupInfo>),
    /// `case mls_key_package: KeyPackage key_package;`
    MlsKeyPackage(Encoded<'a, KeyPackage>),
}

impl<'a> From<Encoded<'a, MLSMessageBody>> for MLSMessageBodyView<'a> {
    ghost from_gives = { λ whole view. elim view as (λ v. Type 0) [
      | MLSMessageBodyView.MlsPublicMessage a0 ↦ IsCase 2 1 whole a0
      | MLSMessageBodyView.MlsPrivateMessage a0 ↦ IsCase 2 2 whole a0
      | MLSMessageBodyView.MlsWelcome a0 ↦ IsCase 2 3 whole a0
      | MLSMessageBodyView.MlsGroupInfo a0 ↦ IsCase 2 4 whole a0
      | MLSMessageBodyView.MlsKeyPackage a0 ↦ IsCase 2 5 whole a0
    ] };

    fn from(whole: Encoded<'a, MLSMessageBody>) -> MLSMessageBodyView<'a> {
        let (tag, parts) = whole.case();
        match tag {
            1 => MLSMessageBodyView::MlsPublicMessage(Encoded::from_only_part(parts)),
            2 => MLSMessageBodyView::MlsPrivateMessage(Encoded::from_only_part(parts)),
            3 => MLSMessageBodyView::MlsWelcome(Encoded::from_only_part(parts)),
            4 => MLSMessageBodyView::MlsGroupInfo(Encoded::from_only_part(parts)),
            5 => MLSMessageBodyView::MlsKeyPackage(Encoded::from_only_part(parts)),
            _ => unreachable!(),
        }
    }
}

impl MLSMessageBody {
    /// The tag of this value's case.
    pub fn wire_format(&self) -> WireFormat
        ensures { result.0 ≡ mls_message_body_tag self.now }
    {
        match self {
            MLSMessageBody::MlsPublicMessage(_) => WireFormat(1),
            MLSMessageBody::MlsPrivateMessage(_) => WireFormat(2),
            MLSMessageBody::MlsWelcome(_) => WireFormat(3),
            MLSMessageBody::MlsGroupInfo(_) => WireFormat(4),
            MLSMessageBody::MlsKeyPackage(_) => WireFormat(5),
        }
    }
}

/// The case `mls_public_message` with this content.
impl From<PublicMessage> for MLSMessageBody {
    ghost from_gives = { λ content value. value ≡ MLSMessageBody.MlsPublicMessage content };

    fn from(content: PublicMessage) -> MLSMessageBody {
        MLSMessageBody::MlsPublicMessage(content)
    }
}

/// The case `mls_private_message` with this content.
impl From<PrivateMessage> for MLSMessageBody {
    ghost from_gives = { λ content value. value ≡ MLSMessageBody.MlsPrivateMessage content };

    fn from(content: PrivateMessage) -> MLSMessageBody {
        MLSMessageBody::MlsPrivateMessage(content)
    }
}

/// The case `mls_welcome` with this content.
impl From<Welcome> for MLSMessageBody {
    ghost from_gives = { λ content value. value ≡ MLSMessageBody.MlsWelcome content };

    fn from(content: Welcome) -> MLSMessageBody {
        MLSMessageBody::MlsWelcome(content)
    }
}

/// The case `mls_group_info` with this content.
impl From<GroupInfo> for MLSMessageBody {
    ghost from_gives = { λ content value. value ≡ MLSMessageBody.MlsGroupInfo content };

    fn from(content: GroupInfo) -> MLSMessageBody {
        MLSMessageBody::MlsGroupInfo(content)
    }
}

/// The case `mls_key_package` with this content.
impl From<KeyPackage> for MLSMessageBody {
    ghost from_gives = { λ content value. value ≡ MLSMessageBody.MlsKeyPackage content };

    fn from(content: KeyPackage) -> MLSMessageBody {
        MLSMessageBody::MlsKeyPackage(content)
    }
}

/// Two values are equal if and only if they have the same case and all their fields are equal.
pub fn is_compared_by_its_case()
    ensures tag { (x y : MLSMessageBody) →
        IsTrue (⟦<MLSMessageBody as PartialEq>⟧.eq x y)
        → mls_message_body_tag x ≡ mls_message_body_tag y }
    ensures case_1 { (a0 b0 : _) →
        ⟦<MLSMessageBody as PartialEq>⟧.eq (MLSMessageBody.MlsPublicMessage a0)
        (MLSMessageBody.MlsPublicMessage b0)
        ≡ ⟦<PublicMessage as PartialEq>⟧.eq a0 b0 }
    ensures case_2 { (a0 b0 : _) →
        ⟦<MLSMessageBody as PartialEq>⟧.eq (MLSMessageBody.MlsPrivateMessage a0)
        (MLSMessageBody.MlsPrivateMessage b0)
        ≡ ⟦<PrivateMessage as PartialEq>⟧.eq a0 b0 }
    ensures case_3 { (a0 b0 : _) →
        ⟦<MLSMessageBody as PartialEq>⟧.eq (MLSMessageBody.MlsWelcome a0)
        (MLSMessageBody.MlsWelcome b0)
        ≡ ⟦<Welcome as PartialEq>⟧.eq a0 b0 }
    ensures case_4 { (a0 b0 : _) →
        ⟦<MLSMessageBody as PartialEq>⟧.eq (MLSMessageBody.MlsGroupInfo a0)
        (MLSMessageBody.MlsGroupInfo b0)
        ≡ ⟦<GroupInfo as PartialEq>⟧.eq a0 b0 }
    ensures case_5 { (a0 b0 : _) →
        ⟦<MLSMessageBody as PartialEq>⟧.eq (MLSMessageBody.MlsKeyPackage a0)
        (MLSMessageBody.MlsKeyPackage b0)
        ≡ ⟦<KeyPackage as PartialEq>⟧.eq a0 b0 }
{}
