//! The names of byte vectors: a type parameter that distinguishes two types, and what `{:?}` prints
//! of each.
ghost use Rattle.std.specs.Prelude.{◌≡◌, ℕ, List, codes};

/// A name that a type has as its parameter. No value of it is made.
pub trait TypeName {
    // Its characters.
    ghost text: { List ℕ };

    /// The name, as `{:?}` prints it.
    fn name() -> &'static str
        ensures { result.now ≡ text };
}

/// The name of [`VLBytes`](crate::VLBytes).
pub struct VLBytesName;

/// The name of [`VLByteVec`](crate::VLByteVec).
pub struct VLByteVecName;

/// The name of [`SecretVLBytes`](crate::SecretVLBytes).
pub struct SecretVLBytesName;

/// The name of [`SecretVLByteVec`](crate::SecretVLByteVec).
pub struct SecretVLByteVecName;

impl TypeName for VLBytesName {
    ghost text = { codes "VLBytes" };

    fn name() -> &'static str {
        "VLBytes"
    }
}

impl TypeName for VLByteVecName {
    ghost text = { codes "VLByteVec" };

    fn name() -> &'static str {
        "VLByteVec"
    }
}

impl TypeName for SecretVLBytesName {
    ghost text = { codes "SecretVLBytes" };

    fn name() -> &'static str {
        "SecretVLBytes"
    }
}

impl TypeName for SecretVLByteVecName {
    ghost text = { codes "SecretVLByteVec" };

    fn name() -> &'static str {
        "SecretVLByteVec"
    }
}
