//! Lists: elements in a row, which fill a declared number of bytes (RFC 8446, section 3.4).
//!
//! Each list type's calls go through the engines here. The engines know of an element only its
//! traits' contracts.
ghost use Rattle.std.specs.Prelude.{◌≡◌, ◌<◌, ◌^◌};

pub(crate) mod engines;
mod reading;
mod whole;
mod writing;

pub use reading::{from_reader, from_reader_for, from_slice, from_slice_for};
pub use whole::{turns_are_compared_by_their_counts, whole_elements_are_one_number};
pub use writing::{
    append, append_bytes, append_for, content_len, content_len_for, write, write_for,
};

/// How often a list engine tried to read an element.
///
/// It grows by one with each attempt, also with a failed one, up to `u64::MAX`. If elements are
/// read at once, it grows by their number.
///
/// ```rust
/// let mut turns = Turns::new();
/// let (elements, rest) = from_slice::<u16>(alloc, &[0, 1, 0, 2, 9], 4, &mut turns)?;
/// assert_eq!(rt; elements.as_slice(), [1u16, 2].as_slice());
/// assert_eq!(rt; turns.count(), 2);
/// ```
#[derive(PartialEq, Eq, Debug, Drop)]
pub struct Turns {
    count: u64,
    ghost fits: { count < 2 ^ 64 },
}

impl Turns {
    ghost use Rattle.tls_codec_base.specs.Turns.{TurnedBy, turns_of};

    /// No turns.
    pub fn new() -> Turns
        ensures { turns_of result ≡ 0 }
    {
        Turns { count: 0 }
    }

    /// How many turns there were.
    pub fn count(&self) -> u64
        ensures { result ≡ turns_of self.now }
    {
        self.count
    }

    // Adds one turn.
    fn turn(&mut self)
        ensures { TurnedBy 1 self.old self.new }
    {
        self.turn_by(1);
    }

    /// Adds `more` turns.
    pub(crate) fn turn_by(&mut self, more: usize)
        ensures { TurnedBy more self.old self.new }
    {
        let Turns { count } = self;
        *count = count.saturating_add(more as u64);
    }
}
