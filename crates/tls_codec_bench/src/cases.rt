//! What is timed.
ghost use Rattle.std.specs.Prelude.{◌≡◌};
ghost use Rattle.tls_codec_bench.specs.Names.{name_of};

/// A value, or a plain copy, that is timed.
#[derive(Clone, Copy, PartialEq, Eq, Debug)]
pub enum Case {
    /// No codec: 64 bytes, copied to a vector of their own.
    Copy64,
    /// The same with 4,096 bytes.
    Copy4096,
    /// The same with a mebibyte.
    Copy1048576,
    /// 64 bytes.
    Bytes64,
    /// 4,096 bytes.
    Bytes4096,
    /// A mebibyte.
    Bytes1048576,
    /// 512 numbers of 16 bits.
    Numbers512,
    /// 65,536 numbers of 16 bits.
    Numbers65536,
    /// The same after a length of four bytes.
    FixedNumbers65536,
    /// 256 lists of 64 numbers of 16 bits.
    Lists,
    /// 64 bytes, moved in bulk.
    Vl64,
    /// 4,096 bytes, moved in bulk.
    Vl4096,
    /// A mebibyte, moved in bulk.
    Vl1048576,
    /// The same after a length of four bytes.
    Fixed1048576,
    /// 1,000 byte vectors of 32 bytes.
    VlLists,
    /// 1,000 byte vectors of no bytes.
    VlEmpty,
    /// A text of 64 letters.
    Text64,
    /// A text of 4,096 letters.
    Text4096,
    /// A message of your own, with 100 messages in it.
    Log,
    /// A key package of MLS.
    KeyPackage,
    /// A welcome of MLS for 100 members.
    Welcome,
    /// A private message of MLS, with 256 bytes of ciphertext.
    PrivateMessage,
    /// An update path of MLS, with ten ciphertexts in each of ten nodes.
    UpdatePath,
    /// `Vl4096`, from a source that doesn't have its bytes at hand.
    Vl4096Outside,
    /// `Numbers512`, from a source that doesn't have its bytes at hand.
    Numbers512Outside,
    /// Lists nested eight deep over one byte.
    DeepOne,
    /// Lists nested eight deep over 256 bytes, two elements in each.
    DeepTwo,
    /// Two lists of 2,048 bytes in another.
    Deep2,
    /// The same, four deep.
    Deep4,
    /// The same, eight deep.
    Deep8,
    /// The same, sixteen deep.
    Deep16,
}

/// The cases, in the order in which they are timed.
///
/// Those of a mebibyte come last: a byte vector of 4,096 was written more slowly after them.
pub const CASES: [Case; 31] = [
    Case::Copy64,
    Case::Copy4096,
    Case::Bytes64,
    Case::Bytes4096,
    Case::Vl64,
    Case::Vl4096,
    Case::Vl4096Outside,
    Case::Text64,
    Case::Text4096,
    Case::Numbers512,
    Case::Numbers512Outside,
    Case::DeepOne,
    Case::DeepTwo,
    Case::Deep2,
    Case::Deep4,
    Case::Deep8,
    Case::Deep16,
    Case::Log,
    Case::KeyPackage,
    Case::Welcome,
    Case::PrivateMessage,
    Case::UpdatePath,
    Case::Lists,
    Case::VlLists,
    Case::VlEmpty,
    Case::Copy1048576,
    Case::Bytes1048576,
    Case::Vl1048576,
    Case::Fixed1048576,
    Case::Numbers65536,
    Case::FixedNumbers65536,
];

impl Case {
    /// What the case is called.
    pub fn name(&self) -> &'static str
        ensures { result.now ≡ name_of self.now }
    {
        match self {
            Case::Copy64 => "copy 64",
            Case::Copy4096 => "copy 4096",
            Case::Copy1048576 => "copy 1048576",
            Case::Bytes64 => "Vec<u8> 64",
            Case::Bytes4096 => "Vec<u8> 4096",
            Case::Bytes1048576 => "Vec<u8> 1048576",
            Case::Numbers512 => "Vec<u16> 512",
            Case::Numbers65536 => "Vec<u16> 65536",
            Case::FixedNumbers65536 => "TlsVecU32<u16> 65536",
            Case::Lists => "Vec<Vec<u16>> 256x64",
            Case::Vl64 => "VLBytes 64",
            Case::Vl4096 => "VLBytes 4096",
            Case::Vl1048576 => "VLBytes 1048576",
            Case::Fixed1048576 => "TlsByteVecU32 1048576",
            Case::VlLists => "Vec<VLBytes> 1000x32",
            Case::VlEmpty => "Vec<VLBytes> 1000x0",
            Case::Text64 => "String 64",
            Case::Text4096 => "String 4096",
            Case::Log => "Log, 100 leaves of 16-byte names",
            Case::KeyPackage => "KeyPackage",
            Case::Welcome => "Welcome, 100 members",
            Case::PrivateMessage => "PrivateMessage",
            Case::UpdatePath => "UpdatePath, 10x10",
            Case::Vl4096Outside => "VLBytes 4096, outside",
            Case::Numbers512Outside => "Vec<u16> 512, outside",
            Case::DeepOne => "8 deep, one element a level",
            Case::DeepTwo => "8 deep, two elements a level",
            Case::Deep2 => "2 deep 2x2048",
            Case::Deep4 => "4 deep 2x2048",
            Case::Deep8 => "8 deep 2x2048",
            Case::Deep16 => "16 deep 2x2048",
        }
    }
}
