//! Messages of MLS (RFC 9420), encoded field by field.
use crate::tests::{END, LENGTH, NOT_FILLED, NOT_THERE, TRAILING, holds, same, same_at};
use mls::{CipherSuite, Credential, LeafNodeOrigin, Lifetime, MLSMessage, MLSMessageBody, Sender};
use std::alloc::Global;
use std::process::Abort;
use std::test::Fail;
use test_support::each_call::expect_encoded_as_vl;
use tls_codec::{Deserialize, DeserializeBytes, Error, VLBytes};

// A key package (sections 6, 10, 7.2 and 5.3), a part of it a line.
pub(super) static KEY_PACKAGE: [u8; 79] = [
    0, 1, // version: mls10
    0, 5, // wire_format: mls_key_package
    0, 1, // version
    0, 1, // cipher_suite
    2, 0xf1, 0xf2, // init_key
    2, 0xf3, 0xf4, // leaf_node: encryption_key
    2, 0xf5, 0xf6, // signature_key
    0, 1, 5, 0x61, 0x6c, 0x69, 0x63, 0x65, // credential: basic, identity
    2, 0, 1, // capabilities: versions
    4, 0, 1, 0x0a, 0x0a, // cipher_suites, the second unknown
    2, 0, 10, // extensions
    2, 0, 8, // proposals
    4, 0, 1, 0, 2, // credentials
    1, // leaf_node_source: key_package
    0, 0, 0, 0, 0, 0, 0, 5, // lifetime: not_before
    0, 0, 0, 0, 0, 0, 0, 6, // not_after
    5, 0, 10, 2, 0x21, 0x22, // extensions: one, its type and data
    2, 0xf7, 0xf8, // signature
    5, 0, 10, 2, 0x21, 0x22, // extensions of the key package
    2, 0xf9, 0xfa, // signature
];

// A commit in a public message (sections 6.2, 12.4 and 7.6).
pub(super) static COMMIT: [u8; 94] = [
    0, 1, // version: mls10
    0, 1, // wire_format: mls_public_message
    1, 0xfa, // content: group_id
    0, 0, 0, 0, 0, 0, 0, 7, // epoch
    1, 0, 0, 0, 2, // sender: member, leaf_index
    1, 0xfb, // authenticated_data
    3, // content_type: commit
    11, // proposals
    1, 0, 3, 0, 0, 0, 9, // proposal: remove, removed
    2, 2, 0xc1, 0xc2, // reference
    1, // path: there
    2, 0xf3, 0xf4, // leaf_node: encryption_key
    2, 0xf5, 0xf6, // signature_key
    0, 1, 5, 0x61, 0x6c, 0x69, 0x63, 0x65, // credential
    2, 0, 1, // capabilities: versions
    4, 0, 1, 0x0a, 0x0a, // cipher_suites
    2, 0, 3, // extensions
    2, 0, 8, // proposals
    4, 0, 1, 0, 2, // credentials
    3, 1, 0xf7, // leaf_node_source: commit, parent_hash
    5, 0, 10, 2, 0x21, 0x22, // extensions
    2, 0xf7, 0xf8, // signature
    7, 1, 0xd1, // nodes: one, its encryption_key
    4, 1, 0xd2, 1, 0xd3, // encrypted_path_secret: one, kem_output and ciphertext
    1, 0xe1, // auth: signature
    1, 0xe2, // confirmation_tag
    1, 0xe3, // membership_tag
];

// Section 6.3.
pub(super) static PRIVATE_MESSAGE: [u8; 21] = [
    0, 1, 0, 2, // version, wire_format: mls_private_message
    1, 0xfa, // group_id
    0, 0, 0, 0, 0, 0, 0, 7, // epoch
    1, // content_type: application
    0, // authenticated_data
    1, 0xa1, // encrypted_sender_data
    2, 0xa2, 0xa3, // ciphertext
];

// Section 12.4.3.1.
static WELCOME: [u8; 17] = [
    0, 1, 0, 3, // version, wire_format: mls_welcome
    0, 1, // cipher_suite
    6, 1, 0xb1, // secrets: one, its new_member
    1, 0xb2, 1, 0xb3, // kem_output and ciphertext
    3, 0xb4, 0xb5, 0xb6, // encrypted_group_info
];

// Section 12.4.3, over section 8.1.
pub(super) static GROUP_INFO: [u8; 36] = [
    0, 1, 0, 4, // version, wire_format: mls_group_info
    0, 1, 0, 1, // group_context: version, cipher_suite
    1, 0xfa, // group_id
    0, 0, 0, 0, 0, 0, 0, 7, // epoch
    1, 0xc1, // tree_hash
    1, 0xc2, // confirmed_transcript_hash
    0, // extensions
    4, 0, 4, 1, 0xc3, // extensions: external_pub
    1, 0xc4, // confirmation_tag
    0, 0, 0, 2, // signer
    1, 0xc5, // signature
];

// For each length one that is one greater and one that is one less: what a slice and a source answer. An independent
// decoder in Python, of these two messages alone, gave the rows.
static KEY_PACKAGE_LENGTHS: [(usize, &[Error]); 15] = [
    (8, &[LENGTH, LENGTH, LENGTH, LENGTH]),
    (11, &[LENGTH, LENGTH, LENGTH, LENGTH]),
    (
        14,
        &[
            Error::UnknownValue(261),
            Error::UnknownValue(261),
            Error::UnknownValue(62976),
            Error::UnknownValue(62976),
        ],
    ),
    (19, &[NOT_FILLED, END, END, END]),
    (25, &[NOT_FILLED, END, NOT_FILLED, END]),
    (28, &[NOT_FILLED, END, NOT_FILLED, END]),
    (33, &[NOT_FILLED, END, NOT_FILLED, END]),
    (36, &[NOT_FILLED, END, NOT_FILLED, END]),
    (39, &[NOT_FILLED, END, NOT_FILLED, END]),
    (61, &[LENGTH, END, NOT_FILLED, END]),
    (64, &[NOT_FILLED, END, LENGTH, END]),
    (67, &[NOT_THERE, END, LENGTH, LENGTH]),
    (70, &[END, END, NOT_FILLED, END]),
    (73, &[NOT_FILLED, END, END, END]),
    (76, &[NOT_THERE, END, TRAILING, TRAILING]),
];

static KEY_PACKAGE_TAGS: [usize; 4] = [1, 3, 18, 44];

static COMMIT_LENGTHS: [(usize, &[Error]); 24] = [
    (
        4,
        &[
            Error::UnknownValue(0),
            Error::UnknownValue(0),
            Error::UnknownValue(7),
            Error::UnknownValue(7),
        ],
    ),
    (
        19,
        &[
            Error::UnknownValue(11),
            Error::UnknownValue(11),
            Error::UnknownValue(251),
            Error::UnknownValue(251),
        ],
    ),
    (22, &[Error::UnknownValue(755), END, NOT_FILLED, END]),
    (
        31,
        &[
            NOT_FILLED,
            END,
            Error::UnknownValue(194),
            Error::UnknownValue(194),
        ],
    ),
    (35, &[LENGTH, LENGTH, LENGTH, LENGTH]),
    (
        38,
        &[
            Error::UnknownValue(261),
            Error::UnknownValue(261),
            Error::UnknownValue(62976),
            Error::UnknownValue(62976),
        ],
    ),
    (43, &[NOT_FILLED, END, END, END]),
    (49, &[NOT_FILLED, END, NOT_FILLED, END]),
    (52, &[NOT_FILLED, END, NOT_FILLED, END]),
    (57, &[NOT_FILLED, END, NOT_FILLED, END]),
    (60, &[NOT_FILLED, END, NOT_FILLED, END]),
    (63, &[NOT_FILLED, END, NOT_FILLED, END]),
    (69, &[LENGTH, END, LENGTH, LENGTH]),
    (71, &[LENGTH, END, NOT_FILLED, END]),
    (74, &[NOT_FILLED, END, LENGTH, END]),
    (77, &[LENGTH, END, LENGTH, LENGTH]),
    (80, &[END, END, NOT_FILLED, END]),
    (81, &[LENGTH, END, LENGTH, END]),
    (83, &[NOT_FILLED, END, NOT_FILLED, END]),
    (84, &[END, END, LENGTH, END]),
    (86, &[NOT_FILLED, END, END, END]),
    (88, &[END, END, END, END]),
    (90, &[END, END, END, END]),
    (92, &[NOT_THERE, END, TRAILING, TRAILING]),
];

static COMMIT_TAGS: [usize; 10] = [1, 3, 14, 21, 23, 25, 30, 34, 42, 68];

// Read by each decoder, and written again to the same bytes.
fn expect_message(alloc: Global, row: &str, bytes: &[u8]) -> Result<MLSMessage, Fail> {
    let message = MLSMessage::tls_deserialize_exact_bytes(alloc, bytes)?;
    expect_encoded_as_vl(alloc, row, &message, bytes)?;
    Ok(message)
}

#[test]
fn each_wire_format(rt: HostRuntime) -> Result<(), Fail> {
    let alloc = rt.alloc();
    let message = expect_message(alloc, "a commit", &COMMIT)?;
    holds(
        &rt,
        matches!(message.body, MLSMessageBody::MlsPublicMessage(_)),
    );
    let message = expect_message(alloc, "a private message", &PRIVATE_MESSAGE)?;
    holds(
        &rt,
        matches!(message.body, MLSMessageBody::MlsPrivateMessage(_)),
    );
    let message = expect_message(alloc, "a welcome", &WELCOME)?;
    holds(&rt, matches!(message.body, MLSMessageBody::MlsWelcome(_)));
    let message = expect_message(alloc, "a group info", &GROUP_INFO)?;
    holds(&rt, matches!(message.body, MLSMessageBody::MlsGroupInfo(_)));
    Ok(())
}

#[test]
fn a_key_package(rt: HostRuntime) -> Result<(), Fail> {
    let alloc = rt.alloc();
    let message = expect_message(alloc, "a key package", &KEY_PACKAGE)?;
    let MLSMessageBody::MlsKeyPackage(package) = message.body else {
        panic!(rt; "no key package");
    };
    let suites = &package.leaf_node.capabilities.cipher_suites;
    let aes = CipherSuite::MLS_128_DHKEMX25519_AES128GCM_SHA256_ED25519;
    holds(&rt, package.cipher_suite == aes);
    holds(
        &rt,
        suites.as_slice() == [aes, CipherSuite(0x0a0a)].as_slice(),
    );
    match &package.leaf_node.credential {
        Credential::Basic(identity) => holds(&rt, identity.as_slice() == b"alice".as_slice()),
        _ => panic!(rt; "another credential"),
    }
    match &package.leaf_node.leaf_node_source {
        LeafNodeOrigin::KeyPackage(lifetime) => holds(&rt, lifetime.not_after == 6),
        _ => panic!(rt; "another source"),
    }
    Ok(())
}

// What Rust's derived `Debug` prints.
#[test]
fn values_are_shown_by_their_fields(rt: HostRuntime) -> Result<(), Fail> {
    let alloc = rt.alloc();
    let lifetime = Lifetime {
        not_before: 5,
        not_after: 6,
    };
    let sender = Sender::Member(3);
    let suite = CipherSuite(0x0a0a);
    let credential = Credential::Basic(VLBytes::from_slice(alloc, b"alice")?);
    let table = [
        (
            format!(in alloc; "{lifetime:?}")?,
            "Lifetime { not_before: 5, not_after: 6 }",
        ),
        (format!(in alloc; "{sender:?}")?, "Member(3)"),
        (format!(in alloc; "{suite:?}")?, "CipherSuite(2570)"),
        (
            format!(in alloc; "{credential:?}")?,
            "Basic(VLBytes { 0x616c696365 })",
        ),
    ];
    for (text, shown) in table {
        same(&rt, text.as_str(), shown);
    }
    Ok(())
}

// What the exact forms answer, from a slice and from a source.
fn rejections(alloc: Global, bytes: &[u8]) -> [Option<Error>; 2] {
    [
        MLSMessage::tls_deserialize_exact_bytes(alloc, bytes).err(),
        MLSMessage::tls_deserialize_exact(alloc, bytes).err(),
    ]
}

// The bytes with others in place of the one at a place.
fn replaced(
    rt: &impl Abort,
    alloc: Global,
    bytes: &[u8],
    at: usize,
    others: &[u8],
) -> Result<Vec<u8>, Fail> {
    let (Some(before), Some(after)) = (bytes.get(..at), bytes.get(at.saturating_add(1)..)) else {
        panic!(rt; "no byte at {at}");
    };
    let mut out = before.to_vec(alloc)?;
    out.extend_from_slice(others)?;
    out.extend_from_slice(after)?;
    Ok(out)
}

// With others in place of the byte at a position, the exact forms reject the bytes with these
// errors.
fn expect_rejected_with(
    rt: &impl Abort,
    alloc: Global,
    spelled: &[u8],
    at: usize,
    others: &[u8],
    expected: [Error; 2],
) -> Result<(), Fail> {
    let bytes = replaced(rt, alloc, spelled, at, others)?;
    same_at(rt, at, rejections(alloc, &bytes), expected.map(Some));
    Ok(())
}

fn expect_wrong_lengths_rejected(
    rt: &impl Abort,
    alloc: Global,
    spelled: &[u8],
    rows: &[(usize, &[Error])],
) -> Result<(), Fail> {
    for (at, errors) in rows.iter().copied() {
        let (Some(length), [greater, greater_read, less, less_read]) = (
            spelled.get(at).copied(),
            errors,
        ) else {
            panic!(rt; "no byte at {at}");
        };
        let one_more = [length.wrapping_add(1)];
        expect_rejected_with(rt, alloc, spelled, at, &one_more, [*greater, *greater_read])?;
        let one_less = [length.wrapping_sub(1)];
        expect_rejected_with(rt, alloc, spelled, at, &one_less, [*less, *less_read])?;
        expect_rejected_with(rt, alloc, spelled, at, &[0x40, length], [LENGTH, LENGTH])?;
    }
    Ok(())
}

fn expect_unknown_tags_rejected(
    rt: &impl Abort,
    alloc: Global,
    spelled: &[u8],
    places: &[usize],
    option: Option<usize>,
) -> Result<(), Fail> {
    for at in places.iter().copied() {
        let error = if Some(at) == option {
            Error::DecodingError("option tag is not 0 or 1")
        } else {
            Error::UnknownValue(0x77)
        };
        expect_rejected_with(rt, alloc, spelled, at, &[0x77], [error, error])?;
    }
    Ok(())
}

#[test]
fn wrong_lengths(rt: HostRuntime) -> Result<(), Fail> {
    expect_wrong_lengths_rejected(&rt, rt.alloc(), &KEY_PACKAGE, &KEY_PACKAGE_LENGTHS)?;
    expect_wrong_lengths_rejected(&rt, rt.alloc(), &COMMIT, &COMMIT_LENGTHS)
}

#[test]
fn unknown_tags(rt: HostRuntime) -> Result<(), Fail> {
    expect_unknown_tags_rejected(&rt, rt.alloc(), &KEY_PACKAGE, &KEY_PACKAGE_TAGS, None)?;
    expect_unknown_tags_rejected(&rt, rt.alloc(), &COMMIT, &COMMIT_TAGS, Some(34))
}
