//! Each type of `ct` has the bytes that its text means.
//! Each value's bytes are those of its parts, by their names.
ghost use Rattle.tls_codec_grammar.specs.Tree.{Tree};
ghost use Rattle.tls_presentation.specs.Meaning.{SameBytes, means, part_means};
ghost use Rattle.tls_presentation.specs.Says.{SpelledAs};
ghost use Rattle.ct_laws.specs.Definitions.{ct};
ghost use Rattle.ct_laws.specs.Says.{DigitallySignedSays, HashAlgorithmSays, LogEntrySays, LogEntryTypeDataSays, LogIDSays, MerkleLeafTypeSays, MerkleTreeLeafSays, PreCertSays, PrecertChainEntrySays, SignatureAlgorithmSays, SignatureAndHashAlgorithmSays, SignatureTypeSays, SignatureTypeCertificateTimestampSays, SignatureTypeTreeHashSays, SignedCertificateTimestampSays, SignedCertificateTimestampListSays, SignedCertificateTimestampTBSSays, TimestampedEntrySays, TimestampedEntryLogEntryTypeDataSays, TreeHeadSignatureSays, VersionSays, X509ChainEntrySays};
ghost use Rattle.ct.specs.declared.digitally_signed.DigitallySigned.{DigitallySigned};
ghost use Rattle.ct.specs.declared.hash_algorithm.HashAlgorithm.{HashAlgorithm};
ghost use Rattle.ct.specs.declared.log_entry.LogEntry.{LogEntry};
ghost use Rattle.ct.specs.declared.log_entry_type_data.LogEntryTypeData.{LogEntryTypeData};
ghost use Rattle.ct.specs.declared.log_id.LogID.{LogID};
ghost use Rattle.ct.specs.declared.merkle_leaf_type.MerkleLeafType.{MerkleLeafType};
ghost use Rattle.ct.specs.declared.merkle_tree_leaf.MerkleTreeLeaf.{MerkleTreeLeaf};
ghost use Rattle.ct.specs.declared.pre_cert.PreCert.{PreCert};
ghost use Rattle.ct.specs.declared.precert_chain_entry.PrecertChainEntry.{PrecertChainEntry};
ghost use Rattle.ct.specs.declared.signature_algorithm.SignatureAlgorithm.{SignatureAlgorithm};
ghost use Rattle.ct.specs.declared.signature_and_hash_algorithm.SignatureAndHashAlgorithm.{SignatureAndHashAlgorithm};
ghost use Rattle.ct.specs.declared.signature_type.SignatureType.{SignatureType};
ghost use Rattle.ct.specs.declared.signature_type_certificate_timestamp.SignatureTypeCertificateTimestamp.{SignatureTypeCertificateTimestamp};
ghost use Rattle.ct.specs.declared.signature_type_tree_hash.SignatureTypeTreeHash.{SignatureTypeTreeHash};
ghost use Rattle.ct.specs.declared.signed_certificate_timestamp.SignedCertificateTimestamp.{SignedCertificateTimestamp};
ghost use Rattle.ct.specs.declared.signed_certificate_timestamp_list.SignedCertificateTimestampList.{SignedCertificateTimestampList};
ghost use Rattle.ct.specs.declared.signed_certificate_timestamp_tbs.SignedCertificateTimestampTBS.{SignedCertificateTimestampTBS};
ghost use Rattle.ct.specs.declared.timestamped_entry.TimestampedEntry.{TimestampedEntry};
ghost use Rattle.ct.specs.declared.timestamped_entry_log_entry_type_data.TimestampedEntryLogEntryTypeData.{TimestampedEntryLogEntryTypeData};
ghost use Rattle.ct.specs.declared.tree_head_signature.TreeHeadSignature.{TreeHeadSignature};
ghost use Rattle.ct.specs.declared.version.Version.{Version};
ghost use Rattle.ct.specs.declared.x509_chain_entry.X509ChainEntry.{X509ChainEntry};
ghost use Rattle.ct.specs.MerkleLeafType.{merkle_leaf_type_code, merkle_leaf_type_name};
ghost use Rattle.ct.specs.Version.{version_code, version_name};
ghost use Rattle.ct.specs.HashAlgorithm.{hash_algorithm_names};
ghost use Rattle.ct.specs.SignatureAlgorithm.{signature_algorithm_names};
ghost use Rattle.ct.specs.SignatureType.{signature_type_names};
ghost use Rattle.std.specs.Prelude.{◌≡◌};
ghost use Rattle.tls_presentation.specs.Says.{names_in, value_number};

use ct::{
    DigitallySigned, HashAlgorithm, LogEntry, LogEntryTypeData, LogID, MerkleLeafType,
    MerkleTreeLeaf, PreCert, PrecertChainEntry, SignatureAlgorithm, SignatureAndHashAlgorithm,
    SignatureType, SignatureTypeCertificateTimestamp, SignatureTypeTreeHash,
    SignedCertificateTimestamp, SignedCertificateTimestampList, SignedCertificateTimestampTBS,
    TimestampedEntry, TimestampedEntryLogEntryTypeData, TreeHeadSignature, Version, X509ChainEntry,
};
use tls_codec::Size;

/// `DigitallySigned`.
pub fn digitally_signed_is_as_printed()
    ensures bytes { (c : Tree) → SameBytes (means ct "DigitallySigned" c)
        ⟦<DigitallySigned as Size>⟧.format }
    ensures values { (v : DigitallySigned) → SpelledAs ⟦<DigitallySigned as Size>⟧.format
        (⟦<DigitallySigned as Size>⟧.plain v) (DigitallySignedSays v) }
{}

/// `HashAlgorithm`.
pub fn hash_algorithm_is_as_printed()
    ensures bytes { (c : Tree) → SameBytes (means ct "HashAlgorithm" c)
        ⟦<HashAlgorithm as Size>⟧.format }
    ensures values { (v : HashAlgorithm) → SpelledAs ⟦<HashAlgorithm as Size>⟧.format
        (⟦<HashAlgorithm as Size>⟧.plain v) (HashAlgorithmSays v) }
    ensures names { hash_algorithm_names ≡ names_in ct "HashAlgorithm" }
{}

/// `LogEntry`.
pub fn log_entry_is_as_printed()
    ensures bytes { (c : Tree) → SameBytes (means ct "LogEntry" c) ⟦<LogEntry as Size>⟧.format }
    ensures values { (v : LogEntry) → SpelledAs ⟦<LogEntry as Size>⟧.format
        (⟦<LogEntry as Size>⟧.plain v) (LogEntrySays v) }
{}

/// `LogEntryTypeData`.
pub fn log_entry_type_data_is_as_printed()
    ensures bytes { (c : Tree) →
        SameBytes (part_means ct "SignedCertificateTimestampTBS" "signed_entry" c)
        ⟦<LogEntryTypeData as Size>⟧.format }
    ensures values { (v : LogEntryTypeData) → SpelledAs ⟦<LogEntryTypeData as Size>⟧.format
        (⟦<LogEntryTypeData as Size>⟧.plain v) (LogEntryTypeDataSays v) }
{}

/// `LogID`.
pub fn log_id_is_as_printed()
    ensures bytes { (c : Tree) → SameBytes (means ct "LogID" c) ⟦<LogID as Size>⟧.format }
    ensures values { (v : LogID) → SpelledAs ⟦<LogID as Size>⟧.format (⟦<LogID as Size>⟧.plain v)
        (LogIDSays v) }
{}

/// `MerkleLeafType`.
pub fn merkle_leaf_type_is_as_printed()
    ensures bytes { (c : Tree) → SameBytes (means ct "MerkleLeafType" c)
        ⟦<MerkleLeafType as Size>⟧.format }
    ensures values { (v : MerkleLeafType) → SpelledAs ⟦<MerkleLeafType as Size>⟧.format
        (⟦<MerkleLeafType as Size>⟧.plain v) (MerkleLeafTypeSays v) }
    ensures names { (v : MerkleLeafType) → value_number ct "MerkleLeafType"
        (merkle_leaf_type_name v) ≡ merkle_leaf_type_code v }
{}

/// `MerkleTreeLeaf`.
pub fn merkle_tree_leaf_is_as_printed()
    ensures bytes { (c : Tree) → SameBytes (means ct "MerkleTreeLeaf" c)
        ⟦<MerkleTreeLeaf as Size>⟧.format }
    ensures values { (v : MerkleTreeLeaf) → SpelledAs ⟦<MerkleTreeLeaf as Size>⟧.format
        (⟦<MerkleTreeLeaf as Size>⟧.plain v) (MerkleTreeLeafSays v) }
{}

/// `PreCert`.
pub fn pre_cert_is_as_printed()
    ensures bytes { (c : Tree) → SameBytes (means ct "PreCert" c) ⟦<PreCert as Size>⟧.format }
    ensures values { (v : PreCert) → SpelledAs ⟦<PreCert as Size>⟧.format
        (⟦<PreCert as Size>⟧.plain v) (PreCertSays v) }
{}

/// `PrecertChainEntry`.
pub fn precert_chain_entry_is_as_printed()
    ensures bytes { (c : Tree) → SameBytes (means ct "PrecertChainEntry" c)
        ⟦<PrecertChainEntry as Size>⟧.format }
    ensures values { (v : PrecertChainEntry) → SpelledAs ⟦<PrecertChainEntry as Size>⟧.format
        (⟦<PrecertChainEntry as Size>⟧.plain v) (PrecertChainEntrySays v) }
{}

/// `SignatureAlgorithm`.
pub fn signature_algorithm_is_as_printed()
    ensures bytes { (c : Tree) → SameBytes (means ct "SignatureAlgorithm" c)
        ⟦<SignatureAlgorithm as Size>⟧.format }
    ensures values { (v : SignatureAlgorithm) → SpelledAs ⟦<SignatureAlgorithm as Size>⟧.format
        (⟦<SignatureAlgorithm as Size>⟧.plain v) (SignatureAlgorithmSays v) }
    ensures names { signature_algorithm_names ≡ names_in ct "SignatureAlgorithm" }
{}

/// `SignatureAndHashAlgorithm`.
pub fn signature_and_hash_algorithm_is_as_printed()
    ensures bytes { (c : Tree) → SameBytes (means ct "SignatureAndHashAlgorithm" c)
        ⟦<SignatureAndHashAlgorithm as Size>⟧.format }
    ensures values { (v : SignatureAndHashAlgorithm) →
        SpelledAs ⟦<SignatureAndHashAlgorithm as Size>⟧.format
        (⟦<SignatureAndHashAlgorithm as Size>⟧.plain v) (SignatureAndHashAlgorithmSays v) }
{}

/// `SignatureType`.
pub fn signature_type_is_as_printed()
    ensures bytes { (c : Tree) → SameBytes (means ct "SignatureType" c)
        ⟦<SignatureType as Size>⟧.format }
    ensures values { (v : SignatureType) → SpelledAs ⟦<SignatureType as Size>⟧.format
        (⟦<SignatureType as Size>⟧.plain v) (SignatureTypeSays v) }
    ensures names { signature_type_names ≡ names_in ct "SignatureType" }
{}

/// `SignatureTypeCertificateTimestamp`.
pub fn signature_type_certificate_timestamp_is_as_printed()
    ensures bytes { (c : Tree) →
        SameBytes (part_means ct "SignedCertificateTimestampTBS" "signature_type" c)
        ⟦<SignatureTypeCertificateTimestamp as Size>⟧.format }
    ensures values { (v : SignatureTypeCertificateTimestamp) →
        SpelledAs ⟦<SignatureTypeCertificateTimestamp as Size>⟧.format
        (⟦<SignatureTypeCertificateTimestamp as Size>⟧.plain v)
        (SignatureTypeCertificateTimestampSays v) }
{}

/// `SignatureTypeTreeHash`.
pub fn signature_type_tree_hash_is_as_printed()
    ensures bytes { (c : Tree) → SameBytes (part_means ct "TreeHeadSignature" "signature_type" c)
        ⟦<SignatureTypeTreeHash as Size>⟧.format }
    ensures values { (v : SignatureTypeTreeHash) →
        SpelledAs ⟦<SignatureTypeTreeHash as Size>⟧.format
        (⟦<SignatureTypeTreeHash as Size>⟧.plain v) (SignatureTypeTreeHashSays v) }
{}

/// `SignedCertificateTimestamp`.
pub fn signed_certificate_timestamp_is_as_printed()
    ensures bytes { (c : Tree) → SameBytes (means ct "SignedCertificateTimestamp" c)
        ⟦<SignedCertificateTimestamp as Size>⟧.format }
    ensures values { (v : SignedCertificateTimestamp) →
        SpelledAs ⟦<SignedCertificateTimestamp as Size>⟧.format
        (⟦<SignedCertificateTimestamp as Size>⟧.plain v) (SignedCertificateTimestampSays v) }
{}

/// `SignedCertificateTimestampList`.
pub fn signed_certificate_timestamp_list_is_as_printed()
    ensures bytes { (c : Tree) → SameBytes (means ct "SignedCertificateTimestampList" c)
        ⟦<SignedCertificateTimestampList as Size>⟧.format }
    ensures values { (v : SignedCertificateTimestampList) →
        SpelledAs ⟦<SignedCertificateTimestampList as Size>⟧.format
        (⟦<SignedCertificateTimestampList as Size>⟧.plain v)
        (SignedCertificateTimestampListSays v) }
{}

/// `SignedCertificateTimestampTBS`.
pub fn signed_certificate_timestamp_tbs_is_as_printed()
    ensures bytes { (c : Tree) → SameBytes (means ct "SignedCertificateTimestampTBS" c)
        ⟦<SignedCertificateTimestampTBS as Size>⟧.format }
    ensures values { (v : SignedCertificateTimestampTBS) →
        SpelledAs ⟦<SignedCertificateTimestampTBS as Size>⟧.format
        (⟦<SignedCertificateTimestampTBS as Size>⟧.plain v) (SignedCertificateTimestampTBSSays v) }
{}

/// `TimestampedEntry`.
pub fn timestamped_entry_is_as_printed()
    ensures bytes { (c : Tree) → SameBytes (means ct "TimestampedEntry" c)
        ⟦<TimestampedEntry as Size>⟧.format }
    ensures values { (v : TimestampedEntry) → SpelledAs ⟦<TimestampedEntry as Size>⟧.format
        (⟦<TimestampedEntry as Size>⟧.plain v) (TimestampedEntrySays v) }
{}

/// `TimestampedEntryLogEntryTypeData`.
pub fn timestamped_entry_log_entry_type_data_is_as_printed()
    ensures bytes { (c : Tree) → SameBytes (part_means ct "TimestampedEntry" "signed_entry" c)
        ⟦<TimestampedEntryLogEntryTypeData as Size>⟧.format }
    ensures values { (v : TimestampedEntryLogEntryTypeData) →
        SpelledAs ⟦<TimestampedEntryLogEntryTypeData as Size>⟧.format
        (⟦<TimestampedEntryLogEntryTypeData as Size>⟧.plain v)
        (TimestampedEntryLogEntryTypeDataSays v) }
{}

/// `TreeHeadSignature`.
pub fn tree_head_signature_is_as_printed()
    ensures bytes { (c : Tree) → SameBytes (means ct "TreeHeadSignature" c)
        ⟦<TreeHeadSignature as Size>⟧.format }
    ensures values { (v : TreeHeadSignature) → SpelledAs ⟦<TreeHeadSignature as Size>⟧.format
        (⟦<TreeHeadSignature as Size>⟧.plain v) (TreeHeadSignatureSays v) }
{}

/// `Version`.
pub fn version_is_as_printed()
    ensures bytes { (c : Tree) → SameBytes (means ct "Version" c) ⟦<Version as Size>⟧.format }
    ensures values { (v : Version) → SpelledAs ⟦<Version as Size>⟧.format
        (⟦<Version as Size>⟧.plain v) (VersionSays v) }
    ensures names { (v : Version) → value_number ct "Version" (version_name v) ≡ version_code v }
{}

/// `X509ChainEntry`.
pub fn x509_chain_entry_is_as_printed()
    ensures bytes { (c : Tree) → SameBytes (means ct "X509ChainEntry" c)
        ⟦<X509ChainEntry as Size>⟧.format }
    ensures values { (v : X509ChainEntry) → SpelledAs ⟦<X509ChainEntry as Size>⟧.format
        (⟦<X509ChainEntry as Size>⟧.plain v) (X509ChainEntrySays v) }
{}
