// The names in the written sources.
use super::same_at;
use std::test::Fail;
use tlsgen_model::names::{constant_name, field_name, module_name, variant_name};

#[test]
fn modules(rt: HostRuntime) -> Result<(), Fail> {
    for (name, wanted) in [
        ("LeafNode", "leaf_node"),
        ("HPKEPublicKey", "hpke_public_key"),
        ("PSKType", "psk_type"),
        ("MLSMessage", "mls_message"),
        ("PreSharedKeyID", "pre_shared_key_id"),
        ("FramedContentTBS", "framed_content_tbs"),
        ("X509Cert", "x509_cert"),
        ("Foo_Bar", "foo_bar"),
        ("", "x"),
        ("9A", "x9_a"),
    ] {
        let found = module_name(rt.alloc(), name)?;
        same_at(&rt, name, found.as_str(), wanted);
    }
    Ok(())
}

#[test]
fn fields(rt: HostRuntime) -> Result<(), Fail> {
    for (name, wanted) in [
        ("leaf_index", "leaf_index"),
        ("type", "kind"),
        ("use", "usage"),
        ("rest", "rest_"),
        ("alloc", "alloc_"),
        ("trees", "trees_"),
        ("fn", "fn_"),
        ("leafIndex", "leaf_index"),
        ("_a", "x_a"),
    ] {
        let found = field_name(rt.alloc(), name)?;
        same_at(&rt, name, found.as_str(), wanted);
    }
    Ok(())
}

#[test]
fn variants(rt: HostRuntime) -> Result<(), Fail> {
    for (name, variant, constant) in [
        ("new_member_commit", "NewMemberCommit", "NEW_MEMBER_COMMIT"),
        ("mls10", "Mls10", "MLS10"),
        ("RawPublicKey", "RawPublicKey", "RAWPUBLICKEY"),
        ("OpenPGP_RESERVED", "OpenPGPReserved", "OPENPGP_RESERVED"),
        ("none", "NoneCase", "NONE"),
        ("number", "NumberCase", "NUMBER"),
        ("color", "ColorCase", "COLOR"),
        (
            "decrypt_error_RESERVED",
            "DecryptErrorReserved",
            "DECRYPT_ERROR_RESERVED",
        ),
        ("a__b", "AB", "A__B"),
        ("512", "V512", "V512"),
        ("_a", "A", "V_A"),
    ] {
        let found = variant_name(rt.alloc(), name, "Color")?;
        same_at(&rt, name, found.as_str(), variant);
        let found = constant_name(rt.alloc(), name)?;
        same_at(&rt, name, found.as_str(), constant);
    }
    Ok(())
}
