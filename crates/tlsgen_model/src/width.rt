//! How many bytes a tag has.
ghost use Rattle.std.specs.Prelude.{◌≡◌, ◌<◌, ◌+◌, ◌^◌, ◌≤◌, ◌↔◌, IfSome, IsSome, IsTrue};
ghost use Rattle.tlsgen_model.specs.Width.{IsLeastWidth, is_tag_width};

/// 1, 2, 4 or 8 bytes.
#[derive(Clone, Copy)]
pub struct Width {
    pub bytes: usize,
    /// The greatest number that fits.
    pub most: u64,
    ghost is_width: { IsTrue (is_tag_width bytes) },
    ghost is_most: { most + 1 ≡ 256 ^ bytes },
}

impl Width {
    /// A width in bytes, if a tag may have it.
    pub fn new(bytes: usize) -> Option<Width>
        ensures bytes { IfSome result (λ width. width.bytes ≡ bytes) }
        ensures some { IsSome result ↔ IsTrue (is_tag_width bytes) }
    {
        match bytes {
            1 => Some(Width {
                bytes: 1,
                most: 0xff,
            }),
            2 => Some(Width {
                bytes: 2,
                most: 0xffff,
            }),
            4 => Some(Width {
                bytes: 4,
                most: 0xffff_ffff,
            }),
            8 => Some(Width {
                bytes: 8,
                most: u64::MAX,
            }),
            _ => None,
        }
    }

    /// Whether a number fits.
    pub fn holds(&self, number: u64) -> bool
        ensures { IsTrue result ↔ (number < 256 ^ self.now.bytes) }
    {
        number <= self.most
    }
}

/// The fewest bytes that hold a number, 1 at least, if those are 4 at most.
pub fn bytes_for(number: u64) -> Option<usize>
    ensures some { IsSome result ↔ (number < 256 ^ 4) }
    ensures least { IfSome result (IsLeastWidth number) }
    ensures holds { IfSome result (λ bytes. (number < 256 ^ bytes) × (0 < bytes) × (bytes ≤ 4)) }
{
    match number {
        0..=0xff => Some(1),
        0x100..=0xffff => Some(2),
        0x1_0000..=0xff_ffff => Some(3),
        0x100_0000..=0xffff_ffff => Some(4),
        _ => None,
    }
}
