//! [`NodeTBS`].
ghost use Rattle.std.specs.Prelude.{◌≡◌, ◌&&◌};
ghost use Rattle.messages_of_each_shape.specs.NodeTBS.{node_tbs_format, node_tbs_meets, node_tbs_plain};
ghost use Rattle.messages_of_each_shape.specs.declared.node_tbs.NodeTBS.{NodeTBS};

use crate::{Key, NodeTBSOrigin};
use tls_codec::{ByRef, Error, Serialize, Sink, Size};
use tls_codec_cases::append_as;

/// `NodeTBS`.
///
/// It has references to its fields. It can only be encoded.
#[derive(PartialEq, Eq, Debug, Clone, Copy)]
pub struct NodeTBS<'a> {
    /// `Key key;`
    pub key: &'a Key,
    /// `NodeSource node_source; select (node_source);`
    pub node_source: NodeTBSOrigin<'a>,
    /// `optional<Key> last;`
    pub last: &'a Option<Key>,
}

impl Size for NodeTBS<'_> {
    ghost plain = { node_tbs_plain };

    ghost format = { node_tbs_format };

    fn tls_serialized_len(&self) -> usize {
        (ByRef(self.key), self.node_source, ByRef(self.last)).tls_serialized_len()
    }

    ghost lawful = { node_tbs_meets };
}

impl Serialize for NodeTBS<'_> {
    fn tls_serialize<W: Sink>(&self, writer: &mut W) -> Result<usize, Error> {
        (ByRef(self.key), self.node_source, ByRef(self.last)).tls_serialize(writer)
    }

    fn tls_serialize_into(&self, out: &mut Vec<u8>) -> Result<usize, Error> {
        append_as(
            self,
            &(ByRef(self.key), self.node_source, ByRef(self.last)),
            out,
        )
    }
}

/// Two values are equal if and only if all their fields are equal.
pub fn is_compared_by_its_fields()
    ensures { (x y : NodeTBS) →
        ⟦<NodeTBS<'static> as PartialEq>⟧.eq x y
        ≡ (⟦<Key as PartialEq>⟧.eq x.key.now y.key.now
        && (⟦<NodeTBSOrigin<'static> as PartialEq>⟧.eq x.node_source y.node_source
        && ⟦<Option<Key> as PartialEq>⟧.eq x.last.now y.last.now)) }
{}
