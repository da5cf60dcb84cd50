// The first bytes of a source, bytes gathered in a vector, and lengths.
ghost use Rattle.std.specs.Prelude.{None, ⊤};
ghost use Rattle.tls_codec_wire.specs.Counts.{no_counts, none_fell_refl};

use super::devices::{ENDED, Fives, Plan};
use super::{same, same_at};
use std::alloc::Global;
use std::process::Abort;
use std::test::Fail;
use tls_codec_wire::bounded::Bounded;
use tls_codec_wire::device::{Fault, Fill, Source};
use tls_codec_wire::error::Error;
use tls_codec_wire::gather::{gather, read_bytes_bounded};
use tls_codec_wire::transfer::read_exactly;
use tls_codec_wire::vlen::{length_form, length_width, read_length, split_length, write_length};

// Has `left` bytes left. It records whether a vector had more room for them than the greater of
// 4,096 and what came.
#[derive(Drop)]
struct RoomWatcher {
    left: usize,
    had_more: bool,
}

impl Source for RoomWatcher {
    ghost coming = { λ _. None };

    ghost counts = { λ _. no_counts };

    ghost given = { λ a g b. ⊤ };

    fn pull(&mut self, _into: &mut [u8]) -> Result<usize, Fault> {
        Ok(0)
    }

    fn pull_onto(&mut self, out: &mut Vec<u8>, most: usize) -> Result<usize, Fault> {
        let room = out.capacity() - out.len();
        self.had_more = self.had_more || room > out.len().max(4096);
        let n = most.min(room).min(4096).min(self.left);
        let _ = out.extend_from_slice(&[7; 4096][..n]);
        self.left -= n;
        Ok(n)
    }

    ghost gives_nothing = { λ s. tt };

    ghost gives_in_order = { λ a xs b ys c p q. tt };

    ghost gives_from_front = { λ a xs b p. tt };

    ghost no_count_falls = { λ a xs b p. none_fell_refl no_counts };
}

// Has no byte, fills buffers alone, and notes the length of the first.
#[derive(Drop)]
struct BufferWatcher {
    first: Option<usize>,
}

impl Source for BufferWatcher {
    ghost coming = { λ _. None };

    ghost counts = { λ _. no_counts };

    ghost given = { λ a g b. ⊤ };

    fn pull(&mut self, into: &mut [u8]) -> Result<usize, Fault> {
        self.first = Some(self.first.unwrap_or(into.len()));
        Ok(0)
    }

    ghost gives_nothing = { λ s. tt };

    ghost gives_in_order = { λ a xs b ys c p q. tt };

    ghost gives_from_front = { λ a xs b p. tt };

    ghost no_count_falls = { λ a xs b p. none_fell_refl no_counts };
}

// Two bytes are read within a limit of two, and none after them.
fn expect_two_bytes<R: Source>(rt: &impl Abort, src: &mut R) {
    let mut inner = Bounded::new(src, 2);
    let mut bytes = [0; 2];
    same(rt, read_exactly(&mut inner, &mut bytes), Ok(()));
    same(rt, bytes, [1, 2]);
    same(
        rt,
        read_exactly(&mut inner, &mut [0]),
        Err(Error::EndOfStream),
    );
}

// They are read so within a limit of three, which leaves one, and the byte after them too.
fn expect_three_bytes<R: Source>(rt: &impl Abort, src: &mut R) {
    let mut outer = Bounded::new(src, 3);
    expect_two_bytes(rt, &mut outer);
    same(rt, outer.limit(), 1);
    let mut byte = [0];
    same(rt, read_exactly(&mut outer, &mut byte), Ok(()));
    same(rt, byte, [3]);
}

// Gathers two bytes within a limit of two.
fn gather_two<R: Source>(alloc: Global, src: &mut R) -> Result<Vec<u8>, Error> {
    let mut first = Bounded::new(src, 2);
    let bytes = read_bytes_bounded(alloc, &mut first, 2)?;
    Ok(bytes)
}

#[test]
fn a_limit_within_a_limit(rt: HostRuntime) {
    let mut src = [1, 2, 3, 4].as_slice();
    expect_three_bytes(&rt, &mut src);
    same(&rt, src, [4].as_slice());
}

#[test]
fn a_limit_over_a_slice(rt: HostRuntime) {
    let mut src = [1, 2, 3].as_slice();
    let mut first = Bounded::new(&mut src, 2);
    same(&rt, first.at_hand(), [1, 2].as_slice());
    let mut into = [0; 4];
    same(&rt, first.pull(&mut into), Ok(2));
    same(&rt, into, [1, 2, 0, 0]);
    same(&rt, first.pull(&mut into), Ok(0));
    same(&rt, first.limit(), 0);
    same(&rt, src.at_hand(), [3].as_slice());
}

#[test]
fn a_buffer_is_filled_at_once_or_not_at_all(rt: HostRuntime) {
    let mut src = [1, 2, 3].as_slice();
    let mut first = Bounded::new(&mut src, 2);
    let mut into = [0; 2];
    same(&rt, first.fill_at_hand(&mut [0; 3]), Fill::TooFew);
    same(&rt, first.fill_at_hand(&mut into), Fill::Full);
    same(&rt, into, [1, 2]);
    same(&rt, first.limit(), 0);
    same(&rt, src.fill_at_hand(&mut into), Fill::TooFew);
    same(&rt, src, [3].as_slice());
    same(
        &rt,
        Fives::new(ENDED).fill_at_hand(&mut into),
        Fill::Unknown,
    );
}

#[test]
fn bytes_are_gathered(rt: HostRuntime) -> Result<(), Fail> {
    let mut src = [1, 2, 3].as_slice();
    let bytes = read_bytes_bounded(rt.alloc(), &mut src, 2)?;
    same(&rt, bytes.as_slice(), [1, 2].as_slice());
    same(&rt, src, [3].as_slice());
    let mut src = [1, 2, 3].as_slice();
    let first = gather_two(rt.alloc(), &mut src)?;
    same(&rt, first.as_slice(), [1, 2].as_slice());
    Ok(())
}

// A vector has at most `isize::MAX` bytes. If it can't hold `length` bytes, none are taken.
#[test]
fn lengths_past_the_end_are_rejected(rt: HostRuntime) {
    let most = isize::MAX as usize;
    for (length, error, left) in [
        (4, Error::EndOfStream, 0),
        (most, Error::EndOfStream, 0),
        (most + 1, Error::InvalidVectorLength, 3),
        (usize::MAX, Error::InvalidVectorLength, 3),
    ] {
        let mut src = [1, 2, 3].as_slice();
        let refused = read_bytes_bounded(rt.alloc(), &mut src, length).err();
        same_at(&rt, length, refused, Some(error));
        same_at(&rt, length, src.len(), left);
    }
}

#[test]
fn what_came_before_the_end_is_kept(rt: HostRuntime) -> Result<(), Fail> {
    let mut src = [1, 2, 3].as_slice();
    let mut bytes = Vec::from_slice(rt.alloc(), &[9])?;
    gather(&mut src, &mut bytes, 2)?;
    same(&rt, bytes.as_slice(), [9, 1, 2].as_slice());
    same(
        &rt,
        gather(&mut src, &mut bytes, 2),
        Err(Error::EndOfStream),
    );
    same(&rt, bytes.as_slice(), [9, 1, 2, 3].as_slice());
    Ok(())
}

#[test]
fn a_length_without_its_bytes_asks_for_little_room(rt: HostRuntime) {
    for left in [0, 1, 5_000, 100_000] {
        let mut src = RoomWatcher {
            left,
            had_more: false,
        };
        let refused = read_bytes_bounded(rt.alloc(), &mut src, isize::MAX as usize);
        same_at(&rt, left, refused.err(), Some(Error::EndOfStream));
        same_at(&rt, left, src.left, 0);
        same_at(&rt, left, src.had_more, false);
        same(&rt, src.at_hand().is_empty(), true);
    }
}

// However many are at hand, there is room for what is read alone.
#[test]
fn bytes_at_hand_get_no_more_room(rt: HostRuntime) -> Result<(), Fail> {
    for len in [1, 300, 5_000] {
        let mut src = [7; 10_000].as_slice();
        let bytes = read_bytes_bounded(rt.alloc(), &mut src, len)?;
        same_at(&rt, len, bytes.capacity(), len);
    }
    Ok(())
}

#[test]
fn a_length_without_its_bytes_has_a_small_buffer(rt: HostRuntime) -> Result<(), Fail> {
    let mut src = BufferWatcher { first: None };
    let refused = read_bytes_bounded(rt.alloc(), &mut src, isize::MAX as usize);
    same(&rt, refused.err(), Some(Error::EndOfStream));
    let first = src.first.ok_or("a buffer")?;
    same_at(&rt, first, (1..=4096).contains(&first), true);
    Ok(())
}

#[test]
fn bytes_are_gathered_between_interruptions(rt: HostRuntime) -> Result<(), Fail> {
    for (interruptions, end) in [(16, None), (17, Some(Error::DecodingError("read failed")))] {
        let mut src = Fives::new(Plan {
            first: None,
            bytes: 2,
            interruptions,
            after: Some(Fault::Failed),
        });
        let bytes = read_bytes_bounded(rt.alloc(), &mut src, 2);
        same(&rt, bytes.err(), end);
    }
    Ok(())
}

#[test]
fn a_length_is_read_in_its_least_width(rt: HostRuntime) {
    for (bytes, length, width) in [
        ([0x25, 0xee].as_slice(), 37, 1),
        (&[0x40, 0x40, 0xee], 64, 2),
        (&[0x80, 0, 0x40, 0, 0xee], 16_384, 4),
        (&[0xbf, 0xff, 0xff, 0xff, 0xee], 1_073_741_823, 4),
    ] {
        let rest = [0xee].as_slice();
        let mut src = bytes;
        same(&rt, read_length(&mut src), Ok((length, width)));
        same(&rt, src, rest);
        same(&rt, split_length(bytes), Ok((length, rest)));
        let mut cut = &bytes[..width - 1];
        same(&rt, split_length(cut), Err(Error::EndOfStream));
        same(&rt, read_length(&mut cut), Err(Error::EndOfStream));
    }
}

#[test]
fn a_length_has_no_other_bytes(rt: HostRuntime) {
    for (bytes, error) in [
        ([0xc0].as_slice(), Error::EndOfStream),
        (&[0xc0, 0, 0, 0, 0x40, 0, 0], Error::EndOfStream),
        (&[0x40, 0x25], Error::InvalidVectorLength),
        (&[0x40, 0], Error::InvalidVectorLength),
        (&[0x80, 0, 0x3f, 0xff], Error::InvalidVectorLength),
        (&[0xc0, 0, 0, 0, 0, 0, 0, 1], Error::InvalidVectorLength),
        (&[0xc0, 0, 0, 0, 0x40, 0, 0, 0], Error::InvalidVectorLength),
    ] {
        let mut src = bytes;
        same_at(&rt, bytes, read_length(&mut src), Err(error));
        same_at(&rt, bytes, split_length(bytes), Err(error));
    }
}

#[test]
fn a_length_is_written_in_the_least_width(rt: HostRuntime) {
    let too_long = Err(Error::InvalidVectorLength);
    for (length, answer, bytes) in [
        (64, Ok(2), [0x40, 0x40].as_slice()),
        (1_073_741_823, Ok(4), &[0xbf, 0xff, 0xff, 0xff]),
        (1_073_741_824, too_long, &[]),
        (4_611_686_018_427_387_904, too_long, &[]),
    ] {
        let mut out = Vec::new(rt.alloc());
        same(&rt, write_length(&mut out, length), answer);
        same(&rt, out.as_slice(), bytes);
        same(&rt, length_width(length), bytes.len());
    }
}

#[test]
fn a_length_stands_in_eight_bytes(rt: HostRuntime) -> Result<(), Fail> {
    let (form, at) = length_form(16_384).ok_or("a length")?;
    same(&rt, &form[at..], [0x80, 0, 0x40, 0].as_slice());
    same(&rt, length_form(1_073_741_824), None);
    Ok(())
}
