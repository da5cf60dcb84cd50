//! Numbers of one width in a row, sent in groups.
ghost use Rattle.std.specs.Prelude.{◌≡◌, ◌≤◌, ℕ, length};
ghost use Rattle.tls_codec_wire.specs.Digits.{Digits, value};
ghost use Rattle.tls_codec_base.specs.declared.numbers.groups.TheConstants.{GROUP};
ghost use Rattle.tls_codec_grammar.specs.Tree.{Number, trees};
ghost use Rattle.tls_codec_grammar.specs.Format.{content_format, number_format};
ghost use Rattle.tls_codec_grammar.specs.Encoding.{Writes};

use tls_codec_wire::{Error, Sink, write_all};

// How many numbers are sent at once. Their digits are on the stack meanwhile, since an encoder
// requests no memory but the sink's.
const GROUP: usize = 64;

// A number that K bytes spell.
pub(crate) trait HasDigits<const K: usize>: Drop {
    // The number.
    ghost number: { Self → ℕ };

    // Its digits.
    fn digits(&self) -> [u8; K]
        ensures { Digits K result (number self.now) };

    // The number of these digits.
    fn of_digits(digits: &[u8; K]) -> Self
        ensures { number result ≡ value digits.now };
}

/// Sends the numbers' digits in a row, and returns how many bytes that is, saturated at `usize::MAX`.
///
/// A width is at most that of `u64`, so that memory can hold an array of a group's digits.
pub(crate) fn send_run<T: HasDigits<K>, W: Sink, const K: usize>(
    numbers: &[T],
    sink: &mut W,
) -> Result<usize, Error>
    requires { K ≤ 8 }
    ensures { Writes (content_format (number_format K))
        (trees (λ x. Number (T.number x)) numbers.now) W.Sink sink.old sink.new result }
{
    let mut sent: usize = 0;
    let mut rest = numbers;
    while !rest.is_empty() {
        let (group, behind) = rest.split_at(rest.len().min(GROUP));
        let length = send_group::<T, W, K>(group, sink)?;
        sent = sent.saturating_add(length);
        rest = behind;
    }
    Ok(sent)
}

// The same for one group, in one piece.
fn send_group<T: HasDigits<K>, W: Sink, const K: usize>(
    group: &[T],
    sink: &mut W,
) -> Result<usize, Error>
    requires width { K ≤ 8 }
    requires size { length group.now ≤ GROUP }
    ensures { Writes (content_format (number_format K)) (trees (λ x. Number (T.number x)) group.now)
        W.Sink sink.old sink.new result }
{
    let mut digits = [[0u8; K]; GROUP];
    for i in 0..group.len() {
        digits[i] = group[i].digits();
    }
    let form = digits[..group.len()].as_flattened();
    write_all(sink, form)?;
    Ok(form.len())
}
