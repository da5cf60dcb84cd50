//! Messages of Certificate Transparency (RFC 6962).
ghost use Rattle.std.specs.Prelude.{◌≡◌, None};
ghost use Rattle.tlsdump.specs.Kinds.{Checks, FirstNamed};
ghost use Rattle.tlsdump.specs.CtKinds.{ct_kinds};

use crate::kinds::{Checked, validated};
use ct::{
    DigitallySigned, LogEntry, LogID, MerkleTreeLeaf, PreCert, PrecertChainEntry,
    SignatureAndHashAlgorithm, SignedCertificateTimestamp, SignedCertificateTimestampList,
    SignedCertificateTimestampTBS, TimestampedEntry, TreeHeadSignature, X509ChainEntry,
};

/// The bytes after the message of this type that `bytes` begins with, or why there is none. `None`:
/// no type has the name.
pub fn check<'a>(name: &str, bytes: &'a [u8]) -> Option<Checked<'a>>
    ensures { FirstNamed ct_kinds name.now (λ k. Checks k.format bytes.now result)
        (result ≡ None) }
{
    match name {
        "DigitallySigned" => validated::<DigitallySigned>(bytes),
        "LogEntry" => validated::<LogEntry>(bytes),
        "LogID" => validated::<LogID>(bytes),
        "MerkleTreeLeaf" => validated::<MerkleTreeLeaf>(bytes),
        "PreCert" => validated::<PreCert>(bytes),
        "PrecertChainEntry" => validated::<PrecertChainEntry>(bytes),
        "SignatureAndHashAlgorithm" => validated::<SignatureAndHashAlgorithm>(bytes),
        "SignedCertificateTimestamp" => validated::<SignedCertificateTimestamp>(bytes),
        "SignedCertificateTimestampList" => validated::<SignedCertificateTimestampList>(bytes),
        "SignedCertificateTimestampTBS" => validated::<SignedCertificateTimestampTBS>(bytes),
        "TimestampedEntry" => validated::<TimestampedEntry>(bytes),
        "TreeHeadSignature" => validated::<TreeHeadSignature>(bytes),
        "X509ChainEntry" => validated::<X509ChainEntry>(bytes),
        _ => None,
    }
}
