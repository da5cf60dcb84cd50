//! The names that `{:?}` prints to distinguish byte vectors.
use crate::tests::same;
use std::process::Abort;
use std::test::Fail;
use tls_codec_vl::names::{
    SecretVLByteVecName, SecretVLBytesName, TypeName, VLByteVecName, VLBytesName,
};

fn expect_named<N: TypeName>(rt: &impl Abort, name: &str) {
    same(rt, N::name(), name);
}

#[test]
fn names_of_byte_vectors(rt: HostRuntime) -> Result<(), Fail> {
    expect_named::<VLBytesName>(&rt, "VLBytes");
    expect_named::<VLByteVecName>(&rt, "VLByteVec");
    expect_named::<SecretVLBytesName>(&rt, "SecretVLBytes");
    expect_named::<SecretVLByteVecName>(&rt, "SecretVLByteVec");
    Ok(())
}
