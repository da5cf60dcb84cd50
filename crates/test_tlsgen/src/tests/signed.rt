// What is signed, as a struct of its own: plans, by hand, and texts that are rejected.
use super::shown::show;
use super::{expect_in_rejection, made, rejection, same_at};
use std::test::Fail;

/// Some of Certificate Transparency (RFC 6962, sections 3.2 and 3.5), with RFC 5246, section 4.7.
pub static TIMESTAMPS: &str =
    "struct { uint16 algorithm; opaque signature<0..2^16-1>; } DigitallySigned;
enum { x509_entry(0), precert_entry(1), (65535) } LogEntryType;
enum { certificate_timestamp(0), tree_hash(1), (255) } SignatureType;
enum { v1(0), (255) } Version;
opaque ASN.1Cert<1..2^24-1>;
opaque CtExtensions<0..2^16-1>;
struct { opaque issuer_key_hash[32]; ASN.1Cert tbs_certificate; } PreCert;
struct {
    Version sct_version;
    uint64 timestamp;
    CtExtensions extensions;
    digitally-signed struct {
        Version sct_version;
        SignatureType signature_type = certificate_timestamp;
        uint64 timestamp;
        LogEntryType entry_type;
        select(entry_type) {
            case x509_entry: ASN.1Cert;
            case precert_entry: PreCert;
        } signed_entry;
        CtExtensions extensions;
    };
} SignedCertificateTimestamp;
digitally-signed struct {
    Version version;
    SignatureType signature_type = tree_hash;
    opaque sha256_root_hash[32];
} TreeHeadSignature;
";

// The plan of that.
static TIMESTAMPS_PLAN: &str =
    "type ASN1Cert = opaque<3: 1..16777215>\ntype CtExtensions = opaque<2: 0..65535>\ndigitally_signed.DigitallySigned: algorithm u2, signature opaque<2: 0..65535>,\nsignature_type.SignatureType open values of 1: CertificateTimestamp 0 TreeHash 1\nversion.Version open values of 1: V1 0\npre_cert.PreCert: issuer_key_hash opaque[32], tbs_certificate =ASN1Cert,\nsignature_type_certificate_timestamp.SignatureTypeCertificateTimestamp values of 1: CertificateTimestamp 0\nlog_entry_type_data.LogEntryTypeData by 2:\n  X509Entry X509_ENTRY 0: asn_1_cert =ASN1Cert,\n  PrecertEntry PRECERT_ENTRY 1: pre_cert PreCert,\nsigned_certificate_timestamp_tbs.SignedCertificateTimestampTBS: sct_version Version, signature_type SignatureTypeCertificateTimestamp, timestamp u8, signed_entry LogEntryTypeData, extensions =CtExtensions,\nsigned_certificate_timestamp.SignedCertificateTimestamp: sct_version Version, timestamp u8, extensions =CtExtensions, signature DigitallySigned,\nsignature_type_tree_hash.SignatureTypeTreeHash values of 1: TreeHash 1\ntree_head_signature.TreeHeadSignature: version Version, signature_type SignatureTypeTreeHash, sha256_root_hash opaque[32],\n";

static PLANNED: [(&str, &str); 5] = [
    // a signature with a name, between fields
    (
        "struct { uint8 a; digitally-signed struct { uint16 b; } proof; uint8 z; } Claim; opaque DigitallySigned<V>;",
        "type DigitallySigned = opaque<V>\nclaim_tbs.ClaimTBS: b u2,\nclaim.Claim: a u1, proof =DigitallySigned, z u1,\n",
    ),
    // nothing is signed
    (
        "struct { digitally-signed struct {}; } Claim; opaque DigitallySigned<V>;",
        "type DigitallySigned = opaque<V>\nclaim_tbs.ClaimTBS:\nclaim.Claim: signature =DigitallySigned,\n",
    ),
    // a borrowed struct has a reference to its signature
    (
        "opaque DigitallySigned<V>; borrowed struct { uint8 a; digitally-signed struct { uint16 b; }; } Claim;",
        "type DigitallySigned = opaque<V>\nclaim_tbs.ClaimTBS: b u2,\nborrowed claim.Claim: a u1, signature =DigitallySigned,\n",
    ),
    // what is signed is in the context of a tag that is sent
    (
        "struct { uint8 t; digitally-signed struct { select (Claim.t) { case 1: uint8 b; case 2: uint16 c; } }; } Claim; opaque DigitallySigned<V>;",
        "type DigitallySigned = opaque<V>\nclaim_tbs.ClaimTBS for t u1 sum by 1:\n  Case1 CASE_1 1: b u1,\n  Case2 CASE_2 2: c u2,\nclaim.Claim: t u1, signature =DigitallySigned,\n",
    ),
    // what is signed alone
    (
        "digitally-signed struct { uint16 b; } Claim;",
        "claim.Claim: b u2,\n",
    ),
];

#[test]
fn what_is_signed_is_apart(rt: HostRuntime) -> Result<(), Fail> {
    for (text, wanted) in PLANNED.iter().chain(&[(TIMESTAMPS, TIMESTAMPS_PLAN)]) {
        let plan = made(&rt, rt.alloc(), text);
        let shown = show(rt.alloc(), &plan)?;
        same_at(&rt, *text, shown.as_str(), *wanted);
    }
    Ok(())
}

// A text, the column, what was found there, and a word of what would be right.
static REJECTED: [(&str, usize, &str, &str); 5] = [
    (
        "struct { digitally-signed struct { uint8 b; }; } A;",
        10,
        "DigitallySigned",
        "given by --with",
    ),
    (
        "opaque DigitallySigned<V>; struct { digitally-signed struct { Foo b; }; } A;",
        63,
        "Foo",
        "given by --with",
    ),
    (
        "opaque DigitallySigned<V>; struct { uint8 signature; digitally-signed struct { uint8 b; }; } A;",
        54,
        "signature",
        "no field before",
    ),
    (
        "opaque DigitallySigned<V>; uint8 ATBS; struct { digitally-signed struct { uint8 b; }; } A;",
        49,
        "ATBS",
        "no definition above",
    ),
    // two signatures
    (
        "opaque DigitallySigned<V>; struct { digitally-signed struct {} b; digitally-signed struct {} c; } A;",
        67,
        "ATBS",
        "no definition above",
    ),
];

#[test]
fn rejections(rt: HostRuntime) -> Result<(), Fail> {
    for (text, column, found, word) in &REJECTED {
        let rejection = rejection(&rt, rt.alloc(), text);
        same_at(&rt, *text, rejection.found.as_str(), *found);
        same_at(&rt, *text, rejection.place.column, *column);
        expect_in_rejection(&rt, &rejection, *word);
    }
    Ok(())
}
