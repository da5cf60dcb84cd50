//! Rows of what no clause says: that calls succeed, which values come of the noise, and which figures a known clock gives.
ghost use Rattle.std.specs.Prelude.{◌≡◌, IfOk, Ok};

use crate::calls::{
    copy, copy_into, decode_outside, decode_reader, decode_slice, encode, encode_into, validate,
    view,
};
use crate::fault::BenchFault;
use crate::median::median;
use crate::noise::Noise;
use crate::ticks::Ticks;
use crate::timing::time;
use crate::values::FromNoise;
use mls::{KeyPackage, PrivateMessage, UpdatePath, Welcome};
use tls_codec_base::{DeserializeBytes, Serialize};
use tls_codec_vectors::{Log, Step};
use tls_codec_wire::Error;

/// Prints the rows: what was asked for, and after a tab what came.
///
/// `Refused`: an encoder or a decoder failed.
pub fn print_checks<R: Print + AllocGlobal>(rt: &R) -> Result<(), BenchFault> {
    print_times(rt)?;
    print_medians(rt)?;
    print_values(rt)?;
    print_log(rt)?;
    print_message::<KeyPackage, R>(rt, "KeyPackage", &[])?;
    print_message::<PrivateMessage, R>(rt, "PrivateMessage", &[256])?;
    print_shapes(rt)?;
    print_last_field(rt)?;
    print_calls(rt)
}

// The time of a call by a clock that goes on by a set step; and why there is none.
fn print_times<R: Print>(rt: &R) -> Result<(), BenchFault> {
    for step in [1, 25] {
        let nanos = time(&Ticks::new(step), || true)?;
        println!(rt; "a clock of {step} ms\t{nanos}")?;
    }
    for (step, succeeds) in [(1, false), (0, true)] {
        let fault = time(&Ticks::new(step), || succeeds).err();
        println!(rt; "a clock of {step} ms, a call that succeeds: {succeeds}\t{fault:?}")?;
    }
    Ok(())
}

fn print_medians<R: Print>(rt: &R) -> Result<(), BenchFault> {
    let mixed = [9, 1, 8, 2, 7, 3, 6, 4, 5, 20, 21, 22, 23, 24, 25];
    for figures in [mixed, [5; 15]] {
        println!(rt; "median of {figures:?}\t{}", median(figures))?;
    }
    Ok(())
}

// The first numbers of the noise, and values of them.
fn print_values<R: Print + AllocGlobal>(rt: &R) -> Result<(), BenchFault> {
    let alloc = rt.alloc();
    let mut noise = Noise::new();
    for _ in 0..3 {
        println!(rt; "noise\t{}", noise.number())?;
    }
    let lists = Vec::<Vec<u8>>::from_noise(alloc, &mut Noise::new(), &[2, 3])?;
    println!(rt; "Vec<Vec<u8>> [2, 3]\t{lists:?}")?;
    let numbers = Vec::<u16>::from_noise(alloc, &mut Noise::new(), &[1])?;
    println!(rt; "Vec<u16> [1]\t{numbers:?}")?;
    let text = String::from_noise(alloc, &mut noise, &[3])?;
    println!(rt; "String [3]\t{text}")?;
    Ok(())
}

// How many bytes its identity has, how many leaves are in order with names of as many bytes, and whether its last step is the jump to 5.
fn print_log<R: Print + AllocGlobal>(rt: &R) -> Result<(), BenchFault> {
    let log = Log::from_noise(rt.alloc(), &mut Noise::new(), &[16])?;
    let mut alike: usize = 0;
    for (leaf, code) in log.leaves.iter().zip(0..100u16) {
        if leaf.code == code && leaf.name.as_slice().len() == 16 {
            alike = alike.saturating_add(1);
        }
    }
    let is_jump = matches!(log.last, Some(Step::Jump(5)));
    println!(rt; "Log [16]\t{} {alike} {is_jump}", log.id.len())?;
    Ok(())
}

// The encoding of a message, and whether it is read as the message again.
fn print_message<T, R: Print + AllocGlobal>(
    rt: &R,
    name: &str,
    shape: &[usize],
) -> Result<(), BenchFault>
where
    T: FromNoise + Serialize + DeserializeBytes + PartialEq + Drop,
{
    let message = T::from_noise(rt.alloc(), &mut Noise::new(), shape)?;
    let form = done(encode(rt.alloc(), &message))?;
    println!(rt; "{name} {shape:?}\t{:?}", form.as_slice())?;
    let read = done(decode_slice::<T>(rt.alloc(), &form))?;
    let is_read_again = read == message;
    println!(rt; "{name} {shape:?} is read again\t{is_read_again}")?;
    Ok(())
}

// How many bytes of ciphertext each member of a welcome has, and how many ciphertexts each node of a path.
fn print_shapes<R: Print + AllocGlobal>(rt: &R) -> Result<(), BenchFault> {
    let noise = &mut Noise::new();
    let welcome = Welcome::from_noise(rt.alloc(), noise, &[3, 80])?;
    for member in &welcome.secrets {
        let ciphertext = member.encrypted_group_secrets.ciphertext.as_slice();
        println!(rt; "Welcome [3, 80]\t{}", ciphertext.len())?;
    }
    let path = UpdatePath::from_noise(rt.alloc(), noise, &[2, 5, 48])?;
    for node in &path.nodes {
        println!(rt;
            "UpdatePath [2, 5, 48]\t{}",
            node.encrypted_path_secret.len()
        )?;
    }
    Ok(())
}

// The signature of a key package: a length of two bytes, and 64 bytes.
fn print_last_field<R: Print + AllocGlobal>(rt: &R) -> Result<(), BenchFault> {
    let package = KeyPackage::from_noise(rt.alloc(), &mut Noise::new(), &[])?;
    let form = done(encode(rt.alloc(), &package))?;
    let Ok(last) = view::<KeyPackage>(&form) else {
        return Err(BenchFault::Refused);
    };
    println!(rt; "last field of KeyPackage\t{last:?}")?;
    Ok(())
}

// Each call that is timed, of an option.
fn print_calls<R: Print + AllocGlobal>(rt: &R) -> Result<(), BenchFault> {
    let alloc = rt.alloc();
    let mut reused = Vec::new(alloc);
    let form = done(encode(alloc, &Some(7u16)))?;
    println!(rt; "encode\t{:?}", form.as_slice())?;
    let count = done(encode_into(&Some(7u16), &mut reused))?;
    println!(rt; "encode_into\t{count} {:?}", reused.as_slice())?;
    let copied = copy(alloc, &form)?;
    println!(rt; "copy\t{:?}", copied.as_slice())?;
    let count = copy_into(&[9, 8], &mut reused)?;
    println!(rt; "copy_into\t{count} {:?}", reused.as_slice())?;
    println!(rt;
        "decode_slice\t{:?}",
        decode_slice::<Option<u16>>(alloc, &form)
    )?;
    println!(rt;
        "decode_reader\t{:?}",
        decode_reader::<Option<u16>>(alloc, &form)
    )?;
    println!(rt;
        "decode_outside\t{:?}",
        decode_outside::<Option<u16>>(alloc, &form)
    )?;
    println!(rt;
        "validate\t{:?}",
        validate::<Option<u16>>(&[1, 0, 7, 9]).ok()
    )?;
    Ok(())
}

// What a call returned. `Refused`: it failed.
fn done<T: Drop>(outcome: Result<T, Error>) -> Result<T, BenchFault>
    ensures { IfOk result (λ value. outcome ≡ Ok value) }
{
    match outcome {
        Ok(value) => Ok(value),
        Err(_) => Err(BenchFault::Refused),
    }
}
