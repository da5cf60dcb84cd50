//! [`Identity`].
ghost use Rattle.std.specs.Prelude.{[], ◌≡◌, ◌&&◌, ◌++◌, IsTrue, true};
ghost use Rattle.tls_codec.specs.OwnMessages.{no_variant_names, no_variant_source_names, nothing_names, nothing_source_names, tagged_names, tagged_source_names, variant_names, variant_source_names};
ghost use Rattle.tls_codec_validate.specs.TaggedPlaces.{no_variant_places, nothing_places, tagged_places, variant_places};
ghost use Rattle.messages_of_each_shape.specs.Identity.{identity_format, identity_meets, identity_plain, identity_tag, identity_variants};
ghost use Rattle.messages_of_each_shape.specs.declared.identity.Identity.{Identity};
ghost use Rattle.tls_codec_views.specs.Views.{IsCase};
ghost use Rattle.messages_of_each_shape.specs.declared.identity.IdentityView.{IdentityView};

use crate::{Key, Level, NameType};
use std::alloc::Global;
use tls_codec::{
    ByRef2, ByRef3, Deserialize, DeserializeBytes, Error, Serialize, Sink, Size, Source,
    unknown_value,
};
use tls_codec_validate::{Rejected, Validate, split_u16};
use tls_codec_views::{Choice, Encoded};

const FULL: u16 = 4;

const ANONYMOUS: u16 = 5;

/// `IdentityType identity_type` of `Identity`, and what comes after each.
#[derive(PartialEq, Eq, Debug, Clone, Drop)]
pub enum Identity {
    /// `case full:`
    Full {
        /// `NameType name_type;`
        name_type: NameType,
        /// `Level level;`
        level: Level,
        /// `Key key;`
        key: Key,
        /// `uint32 since;`
        since: u32,
        /// `optional<Key> last;`
        last: Option<Key>,
    },
    /// `case anonymous:`
    Anonymous,
}

impl Size for Identity {
    ghost plain = { identity_plain };

    ghost format = { identity_format };

    fn tls_serialized_len(&self) -> usize {
        match self {
            Identity::Full {
                name_type,
                level,
                key,
                since,
                last,
            } => (FULL, ByRef3(name_type, level, key), ByRef2(since, last)).tls_serialized_len(),
            Identity::Anonymous => 2,
        }
    }

    ghost lawful = { identity_meets };
}

impl Serialize for Identity {
    fn tls_serialize<W: Sink>(&self, writer: &mut W) -> Result<usize, Error> {
        match self {
            Identity::Full {
                name_type,
                level,
                key,
                since,
                last,
            } => (FULL, ByRef3(name_type, level, key), ByRef2(since, last)).tls_serialize(writer),
            Identity::Anonymous => ANONYMOUS.tls_serialize(writer),
        }
    }

    fn tls_serialize_into(&self, out: &mut Vec<u8>) -> Result<usize, Error> {
        match self {
            Identity::Full {
                name_type,
                level,
                key,
                since,
                last,
            } => (FULL, ByRef3(name_type, level, key), ByRef2(since, last)).tls_serialize_into(out),
            Identity::Anonymous => ANONYMOUS.tls_serialize_into(out),
        }
    }
}

impl Deserialize for Identity {
    ghost names = { tagged_source_names 2
        (variant_source_names 4
        ⟦<((NameType, Level, Key), (u32, Option<Key>)) as Deserialize>⟧.names
        (variant_source_names 5 nothing_source_names
        no_variant_source_names)) };

    fn tls_deserialize<R: Source>(alloc: Global, src: &mut R) -> Result<Identity, Error> {
        let tag = u16::tls_deserialize(alloc, src)?;
        match tag {
            FULL => {
                let ((name_type, level, key), (since, last)) = <(
                    (NameType, Level, Key),
                    (u32, Option<Key>),
                )>::tls_deserialize(alloc, src)?;
                Ok(Identity::Full {
                    name_type,
                    level,
                    key,
                    since,
                    last,
                })
            }
            ANONYMOUS => Ok(Identity::Anonymous),
            _ => Err(unknown_value(u64::from(tag))),
        }
    }
}

impl DeserializeBytes for Identity {
    ghost names = { tagged_names 2
        (variant_names 4 ⟦<((NameType, Level, Key), (u32, Option<Key>)) as DeserializeBytes>⟧.names
        (variant_names 5 nothing_names
        no_variant_names)) };

    fn tls_deserialize_bytes(alloc: Global, whole: &[u8]) -> Result<(Identity, &[u8]), Error> {
        let (tag, rest) = u16::tls_deserialize_bytes(alloc, whole)?;
        match tag {
            FULL => {
                let (((name_type, level, key), (since, last)), rest) = <(
                    (NameType, Level, Key),
                    (u32, Option<Key>),
                )>::tls_deserialize_bytes(alloc, rest)?;
                Ok((
                    Identity::Full {
                        name_type,
                        level,
                        key,
                        since,
                        last,
                    },
                    rest,
                ))
            }
            ANONYMOUS => Ok((Identity::Anonymous, rest)),
            _ => Err(unknown_value(u64::from(tag))),
        }
    }
}

impl Validate for Identity {
    ghost places = { tagged_places 2
        (variant_places 4 ⟦<((NameType, Level, Key), (u32, Option<Key>)) as Validate>⟧.places
        (variant_places 5 nothing_places
        no_variant_places)) };

    fn tls_validate_prefix(whole: &[u8]) -> Result<&[u8], Rejected<'_>> {
        let (tag, rest) = split_u16(whole)?;
        match tag {
            FULL => {
                let behind = <((NameType, Level, Key), (u32, Option<Key>))>::tls_validate_prefix(
                    rest,
                )?;
                Ok(behind)
            }
            ANONYMOUS => Ok(rest),
            _ => Err(Rejected {
                error: unknown_value(u64::from(tag)),
                rest: whole,
            }),
        }
    }
}

impl Choice for Identity {
    type Tag = u16;

    ghost variants = { identity_variants };

    ghost as_choice = { λ bytes is. is };
}

/// The encoding of a [`Identity`], split into its case and fields.
#[derive(Drop)]
pub enum IdentityView<'a> {
    /// `case full:`
    Full {
        /// `NameType name_type;`
        name_type: Encoded<'a, NameType>,
        /// `Level level;`
        level: Encoded<'a, Level>,
        /// `Key key;`
        key: Encoded<'a, Key>,
        /// `uint32 since;`
        since: Encoded<'a, u32>,
        /// `optional<Key> last;`
        last: Encoded<'a, Option<Key>>,
    },
    /// `case anonymous:`
    Anonymous,
}

impl<'a> From<Encoded<'a, Identity>> for IdentityView<'a> {
    ghost from_gives = { λ whole view. elim view as (λ v. Type 0) [
      | IdentityView.Full a0 a1 a2 a3 a4 ↦ IsCase 2 4 whole ((a0 ++ (a1 ++ a2)) ++ (a3 ++ a4))
      | IdentityView.Anonymous ↦ IsCase 2 5 whole []
    ] };

    fn from(whole: Encoded<'a, Identity>) -> IdentityView<'a> {
        let (tag, parts) = whole.case();
        match tag {
            4 => {
                let (parts_0, parts_1) = Encoded::<
                    ((NameType, Level, Key), (u32, Option<Key>)),
                >::from_proved(parts).split();
                let (name_type, level, key) = parts_0.split();
                let (since, last) = parts_1.split();
                IdentityView::Full {
                    name_type,
                    level,
                    key,
                    since,
                    last,
                }
            }
            5 => IdentityView::Anonymous,
            _ => unreachable!(),
        }
    }
}

impl Identity {
    /// The tag of this value's case.
    pub fn identity_type(&self) -> u16
        ensures { result ≡ identity_tag self.now }
    {
        match self {
            Identity::Full { .. } => 4,
            Identity::Anonymous => 5,
        }
    }
}

/// Two values are equal if and only if they have the same case and all their fields are equal.
pub fn is_compared_by_its_case()
    ensures tag { (x y : Identity) →
        IsTrue (⟦<Identity as PartialEq>⟧.eq x y) → identity_tag x ≡ identity_tag y }
    ensures case_4 { (a0 a1 a2 a3 a4 b0 b1 b2 b3 b4 : _) →
        ⟦<Identity as PartialEq>⟧.eq (Identity.Full a0 a1 a2 a3 a4) (Identity.Full b0 b1 b2 b3 b4)
        ≡ (⟦<NameType as PartialEq>⟧.eq a0 b0
        && (⟦<Level as PartialEq>⟧.eq a1 b1
        && (⟦<Key as PartialEq>⟧.eq a2 b2
        && (⟦<u32 as PartialEq>⟧.eq a3 b3
        && ⟦<Option<Key> as PartialEq>⟧.eq a4 b4)))) }
    ensures case_5 { ⟦<Identity as PartialEq>⟧.eq Identity.Anonymous Identity.Anonymous ≡ true }
{}
