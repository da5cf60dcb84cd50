//! Any reader of std as a source. It doesn't report which bytes are to come, and gives its bytes in
//! pieces.
use std::io;
use std::io::Read;
use tls_codec::Outside;

/// Gives at most `most` bytes a call.
#[derive(Drop)]
pub struct Pieces<'a> {
    left: &'a [u8],
    most: usize,
}

impl<'a> Read for Pieces<'a> {
    fn read(&mut self, buf: &mut [u8]) -> io::Result<usize> {
        let most = buf.len().min(self.most);
        self.left.read(&mut buf[..most])
    }
}

/// Pieces of one byte, of two, and all at once.
pub const PIECES: [usize; 3] = [1, 2, usize::MAX];

pub fn in_pieces(bytes: &[u8], most: usize) -> Outside<Pieces<'_>> {
    Outside::new(Pieces { left: bytes, most })
}
