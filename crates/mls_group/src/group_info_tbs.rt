//! [`GroupInfoTBS`].
ghost use Rattle.std.specs.Prelude.{◌≡◌, ◌&&◌};
ghost use Rattle.mls_group.specs.GroupInfoTBS.{group_info_tbs_format, group_info_tbs_meets, group_info_tbs_plain};
ghost use Rattle.mls_group.specs.declared.group_info_tbs.GroupInfoTBS.{GroupInfoTBS};

use crate::{GroupContext, GroupInfo, MAC};
use mls_tree::Extension;
use tls_codec::{ByRef2, Error, Serialize, Sink, Size};
use tls_codec_cases::append_as;

/// `GroupInfoTBS` (RFC 9420, section 12.4.3).
///
/// It has references to its fields. It can only be encoded.
#[derive(PartialEq, Eq, Debug, Clone, Copy)]
pub struct GroupInfoTBS<'a> {
    /// `GroupContext group_context;`
    pub group_context: &'a GroupContext,
    /// `Extension extensions<V>;`
    pub extensions: &'a Vec<Extension>,
    /// `MAC confirmation_tag;`
    pub confirmation_tag: &'a MAC,
    /// `uint32 signer;`
    pub signer: &'a u32,
}

impl Size for GroupInfoTBS<'_> {
    ghost plain = { group_info_tbs_plain };

    ghost format = { group_info_tbs_format };

    fn tls_serialized_len(&self) -> usize {
        (
            ByRef2(self.group_context, self.extensions),
            ByRef2(self.confirmation_tag, self.signer),
        )
            .tls_serialized_len()
    }

    ghost lawful = { group_info_tbs_meets };
}

impl Serialize for GroupInfoTBS<'_> {
    fn tls_serialize<W: Sink>(&self, writer: &mut W) -> Result<usize, Error> {
        (
            ByRef2(self.group_context, self.extensions),
            ByRef2(self.confirmation_tag, self.signer),
        )
            .tls_serialize(writer)
    }

    fn tls_serialize_into(&self, out: &mut Vec<u8>) -> Result<usize, Error> {
        append_as(
            self,
            &(
                ByRef2(self.group_context, self.extensions),
                ByRef2(self.confirmation_tag, self.signer),
            ),
            out,
        )
    }
}

/// The part of a `GroupInfo` that is signed.
impl<'a> From<&'a GroupInfo> for GroupInfoTBS<'a> {
    ghost from_gives = { λ whole borrowed.
        (borrowed.group_context.now ≡ whole.now.group_context)
        × (borrowed.extensions.now ≡ whole.now.extensions)
        × (borrowed.confirmation_tag.now ≡ whole.now.confirmation_tag)
        × (borrowed.signer.now ≡ whole.now.signer) };

    fn from(whole: &'a GroupInfo) -> GroupInfoTBS<'a> {
        GroupInfoTBS {
            group_context: &whole.group_context,
            extensions: &whole.extensions,
            confirmation_tag: &whole.confirmation_tag,
            signer: &whole.signer,
        }
    }
}

/// Two values are equal if and only if all their fields are equal.
pub fn is_compared_by_its_fields()
    ensures { (x y : GroupInfoTBS) →
        ⟦<GroupInfoTBS<'static> as PartialEq>⟧.eq x y
        ≡ (⟦<GroupContext as PartialEq>⟧.eq x.group_context.now y.group_context.now
        && (⟦<Vec<Extension> as PartialEq>⟧.eq x.extensions.now y.extensions.now
        && (⟦<MAC as PartialEq>⟧.eq x.confirmation_tag.now y.confirmation_tag.now
        && ⟦<u32 as PartialEq>⟧.eq x.signer.now y.signer.now))) }
{}
