//! The fields of `SenderData`.
ghost use Rattle.mls.specs.SenderData.{sender_data_format};
ghost use Rattle.tls_codec_outcome.specs.Fields.{Located};
ghost use Rattle.mls_fields.specs.SenderDataFields.{AreSenderDataFields};

use tls_codec_outcome::{Field, Locate, Span};

/// Where the fields of a `SenderData` are (RFC 9420, section 6.3.2).
#[repr(C)]
#[derive(Clone, Copy, PartialEq, Eq, Debug)]
pub struct SenderDataFields {
    /// `uint32 leaf_index;`
    pub leaf_index: Span,
    /// `uint32 generation;`
    pub generation: Span,
    /// `opaque reuse_guard[4];`
    pub reuse_guard: Span,
}

type Parts = (Field<u32>, Field<u32>, Field<[u8; 4]>);

impl SenderDataFields {
    /// The fields of the message that the bytes begin with. If they begin with none, the spans mean
    /// nothing.
    pub fn locate(bytes: &[u8]) -> SenderDataFields
        ensures { Located sender_data_format AreSenderDataFields bytes.now result }
    {
        let ((leaf_index, generation, reuse_guard), _) = <Parts>::locate(bytes, 0);
        SenderDataFields {
            leaf_index,
            generation,
            reuse_guard,
        }
    }
}
