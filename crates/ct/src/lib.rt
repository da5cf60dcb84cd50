//! Messages of Certificate Transparency (RFC 6962, sections 3.1 to 3.5), as printed. Written by `tlsgen`.
#![tactic(auto)]

pub mod digitally_signed;
pub mod hash_algorithm;
pub mod log_entry;
pub mod log_entry_type_data;
pub mod log_id;
pub mod merkle_leaf_type;
pub mod merkle_tree_leaf;
pub mod names;
pub mod pre_cert;
pub mod precert_chain_entry;
pub mod signature_algorithm;
pub mod signature_and_hash_algorithm;
pub mod signature_type;
pub mod signature_type_certificate_timestamp;
pub mod signature_type_tree_hash;
pub mod signed_certificate_timestamp;
pub mod signed_certificate_timestamp_list;
pub mod signed_certificate_timestamp_tbs;
pub mod timestamped_entry;
pub mod timestamped_entry_log_entry_type_data;
pub mod tree_head_signature;
pub mod version;
pub mod x509_chain_entry;

pub use digitally_signed::{DigitallySigned, DigitallySignedView};
pub use hash_algorithm::HashAlgorithm;
pub use log_entry::{LogEntry, LogEntryView};
pub use log_entry_type_data::{LogEntryTypeData, LogEntryTypeDataView};
pub use log_id::{LogID, LogIDView};
pub use merkle_leaf_type::MerkleLeafType;
pub use merkle_tree_leaf::{MerkleTreeLeaf, MerkleTreeLeafView};
pub use names::{ASN1Cert, CtExtensions, SerializedSCT, TBSCertificate};
pub use pre_cert::{PreCert, PreCertView};
pub use precert_chain_entry::{PrecertChainEntry, PrecertChainEntryView};
pub use signature_algorithm::SignatureAlgorithm;
pub use signature_and_hash_algorithm::{SignatureAndHashAlgorithm, SignatureAndHashAlgorithmView};
pub use signature_type::SignatureType;
pub use signature_type_certificate_timestamp::SignatureTypeCertificateTimestamp;
pub use signature_type_tree_hash::SignatureTypeTreeHash;
pub use signed_certificate_timestamp::{
    SignedCertificateTimestamp, SignedCertificateTimestampView,
};
pub use signed_certificate_timestamp_list::{
    SignedCertificateTimestampList, SignedCertificateTimestampListView,
};
pub use signed_certificate_timestamp_tbs::{
    SignedCertificateTimestampTBS, SignedCertificateTimestampTBSView,
};
pub use timestamped_entry::{TimestampedEntry, TimestampedEntryView};
pub use timestamped_entry_log_entry_type_data::{
    TimestampedEntryLogEntryTypeData, TimestampedEntryLogEntryTypeDataView,
};
pub use tree_head_signature::{TreeHeadSignature, TreeHeadSignatureView};
pub use version::Version;
pub use x509_chain_entry::{X509ChainEntry, X509ChainEntryView};
