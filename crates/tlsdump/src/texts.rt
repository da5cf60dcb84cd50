//! The texts that say what messages are, for the walk.

mod of_ct;
mod of_mls;
mod of_mls_group;
mod of_mls_tree;
mod of_tls13;

use crate::kinds::Protocol;
use crate::walk::definitions::Definitions;
use std::alloc::Global;
use tlsgen_syntax::rejection::Trouble;

// Two types that the RFCs' texts lack: the data of `application_id` (RFC 9420, section 5.3.3), and the
// messages of a record (RFC 8446, section 5.1). The walk opens such bytes.
static MLS: &str =
    "// RFC 9420\n// ---- section 5.3.3\nstruct { opaque application_id<V>; } ApplicationId;\n";

static TLS: &str = "// RFC 8446\n// ---- section 5.1\n\
     struct { Handshake messages[TLSPlaintext.length]; } HandshakeMessages;\n";

static TLS_NOTES: &str = "HandshakeMessages.messages fills rest;\n";

/// The definitions of a protocol's texts.
pub fn definitions(alloc: Global, protocol: Protocol) -> Result<Definitions, Trouble> {
    let mut definitions = Definitions::new(alloc);
    match protocol {
        Protocol::Mls => {
            definitions.add(alloc, of_mls::TEXT, of_mls::NOTES)?;
            definitions.add(alloc, of_mls_group::TEXT, of_mls_group::NOTES)?;
            definitions.add(alloc, of_mls_tree::TEXT, of_mls_tree::NOTES)?;
            definitions.add(alloc, MLS, "")?;
        }
        Protocol::Tls13 => {
            definitions.add(alloc, of_tls13::TEXT, of_tls13::NOTES)?;
            definitions.add(alloc, of_ct::TEXT, of_ct::NOTES)?;
            definitions.add(alloc, TLS, TLS_NOTES)?;
        }
        Protocol::Ct => definitions.add(alloc, of_ct::TEXT, of_ct::NOTES)?,
    }
    Ok(definitions)
}
