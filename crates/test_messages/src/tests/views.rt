//! Messages of MLS by their fields and cases, where they lie.

use crate::tests::mls_messages::{COMMIT, KEY_PACKAGE};
use crate::tests::same;
use mls::{ContentType, FramedContentAuthData, PrivateContent, Sender, SenderType, SenderView};
use mls_group::{
    GroupContextExtensions, GroupContextExtensionsView, MAC, PSKOrigin, PSKOriginView,
    ResumptionPSKUsage,
};
use mls_tree::{
    CipherSuite, CredentialView, KeyPackage, KeyPackageView, LeafNode, LeafNodeOriginView,
    LeafNodeView, LifetimeView, ProtocolVersion,
};
use tls_codec::{Always, VLBytes, When};
use tls_codec_cases::{By, Is};
use tls_codec_views::{Encoded, EncodedFor};

#[test]
fn a_key_package_by_its_fields(rt: HostRuntime) {
    let Ok(package) = Encoded::<KeyPackage>::new(&KEY_PACKAGE[4..]) else {
        panic!(rt; "no key package");
    };
    let package = KeyPackageView::from(package);
    let aes = CipherSuite::MLS_128_DHKEMX25519_AES128GCM_SHA256_ED25519;
    same(&rt, package.version.get(), ProtocolVersion(1));
    same(&rt, package.cipher_suite.get(), aes);
    same(&rt, package.init_key.content(), [0xf1u8, 0xf2].as_slice());
    same(&rt, package.leaf_node.as_bytes(), &KEY_PACKAGE[11..70]);
    same(&rt, package.signature.content(), [0xf9u8, 0xfa].as_slice());
    let mut extensions = package.extensions.elements();
    same(
        &rt,
        extensions.next().map(|first| first.as_bytes()),
        Some([0u8, 10, 2, 0x21, 0x22].as_slice()),
    );
    same(&rt, extensions.next().is_none(), true);
    let leaf = LeafNodeView::from(package.leaf_node);
    same(
        &rt,
        leaf.credential.as_bytes(),
        b"\0\x01\x05alice".as_slice(),
    );
    same(&rt, leaf.signature.content(), [0xf7u8, 0xf8].as_slice());
}

// Its credential and its source (sections 5.3 and 7.2).
#[test]
fn a_leaf_by_its_cases(rt: HostRuntime) {
    let Ok(leaf) = Encoded::<LeafNode>::new(&KEY_PACKAGE[11..70]) else {
        panic!(rt; "no leaf node");
    };
    let leaf = LeafNodeView::from(leaf);
    let CredentialView::Basic(identity) = CredentialView::from(leaf.credential) else {
        panic!(rt; "no basic credential");
    };
    same(&rt, identity.content(), b"alice".as_slice());
    let LeafNodeOriginView::KeyPackage(lifetime) = LeafNodeOriginView::from(leaf.leaf_node_source)
    else {
        panic!(rt; "no leaf of a key package");
    };
    let lifetime = LifetimeView::from(lifetime);
    same(&rt, lifetime.not_before.get(), 5);
    same(&rt, lifetime.not_after.get(), 6);
}

// A sender that has nothing but its type (section 6).
#[test]
fn a_case_without_fields(rt: HostRuntime) {
    let Ok(sender) = Encoded::<Sender>::new(&[4]) else {
        panic!(rt; "no sender");
    };
    let SenderView::NewMemberCommit = SenderView::from(sender) else {
        panic!(rt; "no new member");
    };
    let Ok(sender_type) = Encoded::<SenderType>::new(&[2]) else {
        panic!(rt; "no sender type");
    };
    same(&rt, sender_type.number(), 2);
    same(&rt, sender_type.get(), SenderType::External);
}

// A pre-shared key of a group's resumption (section 8.4): usage branch, a group and an epoch.
#[test]
fn a_case_of_three_fields(rt: HostRuntime) {
    let bytes = [2, 3, 2, 0xc1, 0xc2, 0, 0, 0, 0, 0, 0, 0, 7];
    let Ok(key) = Encoded::<PSKOrigin>::new(&bytes) else {
        panic!(rt; "no pre-shared key");
    };
    let PSKOriginView::Resumption {
        usage,
        psk_group_id,
        psk_epoch,
    } = PSKOriginView::from(key)
    else {
        panic!(rt; "no resumption");
    };
    same(&rt, usage.get(), ResumptionPSKUsage::Branch);
    same(&rt, psk_group_id.content(), [0xc1u8, 0xc2].as_slice());
    same(&rt, psk_epoch.get(), 7);
}

type AuthData = (Always<VLBytes>, When<Is<3>, MAC>);

fn signature_of<'a>(part: &EncodedFor<'a, ContentType, Always<VLBytes>>) -> &'a [u8] {
    part.always().content()
}

fn confirmation_of<'a>(part: &EncodedFor<'a, ContentType, When<Is<3>, MAC>>) -> Option<&'a [u8]> {
    match part.payload() {
        Some(tag) => Some(tag.content()),
        None => None,
    }
}

// The signature, and of a commit the confirmation tag (section 6.1).
fn tags_of<'a>(parts: &EncodedFor<'a, ContentType, AuthData>) -> (&'a [u8], Option<&'a [u8]>) {
    let (signature, confirmation) = parts.split();
    (signature_of(&signature), confirmation_of(&confirmation))
}

#[test]
fn what_a_content_type_decides(rt: HostRuntime) {
    let commit = ContentType::Commit;
    let Ok(auth) = EncodedFor::<ContentType, FramedContentAuthData>::new(&commit, &COMMIT[88..92])
    else {
        panic!(rt; "no auth data");
    };
    let (signature, confirmation) = tags_of(&auth.parts());
    same(&rt, signature, [0xe1u8].as_slice());
    same(&rt, confirmation, Some([0xe2u8].as_slice()));
}

type TagOfMember = By<SenderType, When<Is<1>, MAC>>;

fn membership_tag_of<'a>(part: &EncodedFor<'a, Sender, TagOfMember>) -> Option<&'a [u8]> {
    let tag = part.held();
    match tag.payload() {
        Some(tag) => Some(tag.content()),
        None => None,
    }
}

// A member's message has a membership tag, and no other sender's has one (section 6.2).
#[test]
fn a_tag_that_the_sender_decides(rt: HostRuntime) {
    let Ok(tag) = EncodedFor::<Sender, TagOfMember>::new(&Sender::Member(3), &[1, 0xe3]) else {
        panic!(rt; "no tag");
    };
    same(&rt, membership_tag_of(&tag), Some([0xe3u8].as_slice()));
    let Ok(nothing) = EncodedFor::<Sender, TagOfMember>::new(&Sender::NewMemberCommit, &[]) else {
        panic!(rt; "a tag");
    };
    same(&rt, membership_tag_of(&nothing), None);
}

// What a private message encrypts, in the context of its content type (section 6.3.1).
#[test]
fn a_private_content_by_its_case(rt: HostRuntime) {
    let application = ContentType::Application;
    let Ok(content) = EncodedFor::<ContentType, PrivateContent>::new(&application, &[2, 0x61, 0x62])
    else {
        panic!(rt; "no content");
    };
    same(&rt, content.case(), (1, [2u8, 0x61, 0x62].as_slice()));
}

#[test]
fn a_commit_that_is_cut_off(rt: HostRuntime) {
    let Err(rejected) = EncodedFor::<ContentType, PrivateContent>::new(&ContentType::Commit, &[2])
    else {
        panic!(rt; "a commit");
    };
    same(&rt, rejected.at(&[2]), 1);
}

// A struct that is one list (section 12.1.7).
#[test]
fn a_list_of_extensions_alone(rt: HostRuntime) {
    let Ok(found) = Encoded::<GroupContextExtensions>::new(&[5, 0, 10, 2, 0x21, 0x22]) else {
        panic!(rt; "no extensions");
    };
    let mut extensions = GroupContextExtensionsView::from(found)
        .extensions
        .elements();
    same(
        &rt,
        extensions.next().map(|first| first.as_bytes()),
        Some([0u8, 10, 2, 0x21, 0x22].as_slice()),
    );
    same(&rt, extensions.next().is_none(), true);
}
