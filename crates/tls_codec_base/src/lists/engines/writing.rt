//! Elements in a row, written without a length, however they are coded.
ghost use Rattle.std.specs.Prelude.{◌≡◌, ◌≤◌, ◌*◌, ◌^◌, IfErr, IfOk};
ghost use Rattle.tls_codec_wire.specs.declared.error.Error.TheVariants.{InvalidVectorLength};
ghost use Rattle.tls_codec_grammar.specs.Tree.{trees};
ghost use Rattle.tls_codec_grammar.specs.Announced.{content_sum};
ghost use Rattle.tls_codec_grammar.specs.Format.{content_format};
ghost use Rattle.tls_codec_grammar.specs.Encoding.{AllAppended, AppendsForm, Writes};

use crate::lists::engines::coding::{ElementCoding, ElementWriter};
use tls_codec_wire::{Error, Sink};

/// What [`content_len`](crate::lists::content_len) does.
pub(crate) fn content_len<T, K: ElementCoding<T>>(
    coding: &K,
    elements: &[T],
) -> Result<usize, Error>
    ensures ok { IfOk result
        (λ n. n ≡ content_sum (K.format coding.now).announced (trees K.plain elements.now)) }
    ensures err { IfErr result
        (λ e. (e ≡ InvalidVectorLength)
        × (2 ^ 64 ≤ content_sum (K.format coding.now).announced (trees K.plain elements.now))) }
{
    match coding.fixed_len() {
        Some(each) => product(elements.len(), each),
        None => sum_of_lengths(coding, elements),
    }
}

// `count` times the length `each`.
fn product(count: usize, each: usize) -> Result<usize, Error>
    ensures ok { IfOk result (λ n. n ≡ count * each) }
    ensures err { IfErr result (λ e. (e ≡ InvalidVectorLength) × (2 ^ 64 ≤ count * each)) }
{
    match count.checked_mul(each) {
        Some(length) => Ok(length),
        None => Err(Error::InvalidVectorLength),
    }
}

// The same, one element after another.
fn sum_of_lengths<T, K: ElementCoding<T>>(coding: &K, elements: &[T]) -> Result<usize, Error>
    ensures ok { IfOk result
        (λ n. n ≡ content_sum (K.format coding.now).announced (trees K.plain elements.now)) }
    ensures err { IfErr result
        (λ e. (e ≡ InvalidVectorLength)
        × (2 ^ 64 ≤ content_sum (K.format coding.now).announced (trees K.plain elements.now))) }
{
    let mut sum: usize = 0;
    for element in elements {
        let Some(more) = sum.checked_add(coding.element_len(element)) else {
            return Err(Error::InvalidVectorLength);
        };
        sum = more;
    }
    Ok(sum)
}

/// What [`write`](crate::lists::write) does.
pub(crate) fn write<T, K: ElementWriter<T>, W: Sink>(
    coding: &K,
    sink: &mut W,
    elements: &[T],
) -> Result<usize, Error>
    ensures { Writes (content_format (K.format coding.now)) (trees K.plain elements.now) W.Sink
        sink.old sink.new
        result }
{
    match coding.send_at_once(elements, sink)? {
        Some(sent) => Ok(sent),
        None => write_each(coding, sink, elements),
    }
}

// The same, one element after another.
fn write_each<T, K: ElementWriter<T>, W: Sink>(
    coding: &K,
    sink: &mut W,
    elements: &[T],
) -> Result<usize, Error>
    ensures { Writes (content_format (K.format coding.now)) (trees K.plain elements.now) W.Sink
        sink.old sink.new
        result }
{
    let mut sent: usize = 0;
    for element in elements {
        let length = coding.write_element(element, sink)?;
        sent = sent.saturating_add(length);
    }
    Ok(sent)
}

/// What [`append`](crate::lists::append) does.
pub(crate) fn append<T, K: ElementWriter<T>>(
    coding: &K,
    out: &mut Vec<u8>,
    elements: &[T],
) -> Result<usize, Error>
    ensures { AppendsForm (content_format (K.format coding.now)) (trees K.plain elements.now)
        out.old.items
        out.new.items result }
{
    match append_at_once(coding, out, elements)? {
        Some(length) => Ok(length),
        None => append_each(coding, out, elements),
    }
}

/// The same at once. `None` if such elements are appended one by one; then nothing is appended.
pub(crate) fn append_at_once<T, K: ElementCoding<T>>(
    coding: &K,
    out: &mut Vec<u8>,
    elements: &[T],
) -> Result<Option<usize>, Error>
    ensures { AllAppended (K.format coding.now) (trees K.plain elements.now) out.old.items
        out.new.items result }
{
    let at = out.len();
    match coding.send_at_once(elements, out) {
        Ok(Some(_)) => Ok(Some(out.len() - at)),
        Ok(None) => Ok(None),
        Err(error) => {
            out.truncate(at);
            Err(error)
        }
    }
}

// The same, one element after another.
fn append_each<T, K: ElementWriter<T>>(
    coding: &K,
    out: &mut Vec<u8>,
    elements: &[T],
) -> Result<usize, Error>
    ensures { AppendsForm (content_format (K.format coding.now)) (trees K.plain elements.now)
        out.old.items
        out.new.items result }
{
    let at = out.len();
    for element in elements {
        if let Err(error) = coding.append_element(element, out) {
            out.truncate(at);
            return Err(error);
        }
    }
    Ok(out.len() - at)
}
