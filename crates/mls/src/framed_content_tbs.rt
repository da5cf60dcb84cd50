//! [`FramedContentTBS`].
ghost use Rattle.std.specs.Prelude.{◌≡◌, ◌&&◌};
ghost use Rattle.mls.specs.FramedContentTBS.{framed_content_tbs_format, framed_content_tbs_meets, framed_content_tbs_plain};
ghost use Rattle.mls.specs.declared.framed_content_tbs.FramedContentTBS.{FramedContentTBS};
ghost use Rattle.mls.specs.FramedContentTBS.{framed_content_tbs_content_type};

use crate::{ContentType, FramedContent, SenderType, WireFormat};
use mls_group::{GroupContext, ProtocolVersionMls10};
use std::marker::PhantomData;
use tls_codec::{ByRef, ByRefThen, ByRefWhen, Error, Serialize, Sink, Size};
use tls_codec_cases::{AnyOf, By, Holds, Is, append_as, write_as};

/// `FramedContentTBS` (RFC 9420, section 6.1).
///
/// It has references to its fields. It can only be encoded.
#[derive(PartialEq, Eq, Debug, Clone, Copy)]
pub struct FramedContentTBS<'a> {
    /// `ProtocolVersion version = mls10;`
    pub version: &'a ProtocolVersionMls10,
    /// `WireFormat wire_format;`
    pub wire_format: &'a WireFormat,
    /// `FramedContent content;`
    pub content: &'a FramedContent,
    /// `case member: case new_member_commit: GroupContext context;`
    pub context: &'a Option<GroupContext>,
}

type ByRefParts<'a> = (
    (ByRef<'a, ProtocolVersionMls10>, ByRef<'a, WireFormat>),
    ByRefThen<'a, FramedContent, By<SenderType, ByRefWhen<'a, AnyOf<Is<1>, Is<4>>, GroupContext>>>,
);

impl FramedContentTBS<'_> {
    fn parts(&self) -> ByRefParts<'_>
        ensures { ⟦<ByRefParts<'static> as Size>⟧.plain result ≡ framed_content_tbs_plain self.now }
    {
        let first = self.content;
        let rest = By(
            ByRefWhen {
                value: self.context,
                condition: PhantomData::<AnyOf<Is<1>, Is<4>>>,
            },
            PhantomData,
        );
        (
            (ByRef(self.version), ByRef(self.wire_format)),
            ByRefThen { first, rest },
        )
    }
}

impl Size for FramedContentTBS<'_> {
    ghost plain = { framed_content_tbs_plain };

    ghost format = { framed_content_tbs_format };

    fn tls_serialized_len(&self) -> usize {
        self.parts().tls_serialized_len()
    }

    ghost lawful = { framed_content_tbs_meets };
}

/// `EncodingError("value does not fit its context")`: a field's case is for another tag.
impl Serialize for FramedContentTBS<'_> {
    fn tls_serialize<W: Sink>(&self, writer: &mut W) -> Result<usize, Error> {
        write_as(self, &self.parts(), writer)
    }

    fn tls_serialize_into(&self, out: &mut Vec<u8>) -> Result<usize, Error> {
        append_as(self, &self.parts(), out)
    }
}

impl Holds<ContentType> for FramedContentTBS<'_> {
    ghost held = { framed_content_tbs_content_type };

    fn held(&self) -> ContentType {
        self.content.held()
    }
}

/// Two values are equal if and only if all their fields are equal.
pub fn is_compared_by_its_fields()
    ensures { (x y : FramedContentTBS) →
        ⟦<FramedContentTBS<'static> as PartialEq>⟧.eq x y
        ≡ (⟦<ProtocolVersionMls10 as PartialEq>⟧.eq x.version.now y.version.now
        && (⟦<WireFormat as PartialEq>⟧.eq x.wire_format.now y.wire_format.now
        && (⟦<FramedContent as PartialEq>⟧.eq x.content.now y.content.now
        && ⟦<Option<GroupContext> as PartialEq>⟧.eq x.context.now y.context.now))) }
{}
