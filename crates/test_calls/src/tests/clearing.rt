//! What is cleared, and when.
ghost use Rattle.std.specs.Prelude.{⊤};

use crate::tests::same;
use std::alloc::Global;
use std::cell::Cell;
use std::test::Fail;
use tls_codec::{
    SecretTlsVecU8, SecretTlsVecU16, SecretTlsVecU24, SecretTlsVecU32, VLByteVec, VLBytes, Zeroize,
};

// An element that counts how often it was cleared.
#[derive(Drop)]
struct Probe<'a> {
    clearings: &'a Cell<u32>,
}

impl<'a> Zeroize for Probe<'a> {
    ghost cleared = { λ _. ⊤ };

    fn zeroize(&mut self) {
        self.clearings.set(self.clearings.get().saturating_add(1));
    }
}

fn probes<'a>(alloc: Global, clearings: &'a Cell<u32>, count: u32) -> Result<Vec<Probe<'a>>, Fail> {
    let mut probes = Vec::new(alloc);
    for _ in 0..count {
        probes.push(Probe { clearings })?;
    }
    Ok(probes)
}

fn three<'a>(alloc: Global, clearings: &'a Cell<u32>) -> Result<Vec<Probe<'a>>, Fail> {
    probes(alloc, clearings, 3)
}

#[test]
fn drop_without_zeroize(rt: HostRuntime) -> Result<(), Fail> {
    let alloc = rt.alloc();
    let count = Cell::new(0);
    for elements in [0, 1, 3] {
        drop(SecretTlsVecU8::new(probes(alloc, &count, elements)?));
        same(&rt, count.replace(0), elements);
        drop(SecretTlsVecU16::new(probes(alloc, &count, elements)?));
        same(&rt, count.replace(0), elements);
        drop(SecretTlsVecU24::new(probes(alloc, &count, elements)?));
        same(&rt, count.replace(0), elements);
        drop(SecretTlsVecU32::new(probes(alloc, &count, elements)?));
        same(&rt, count.replace(0), elements);
    }
    Ok(())
}

#[test]
fn elements_that_are_taken_out_are_not_cleared(rt: HostRuntime) -> Result<(), Fail> {
    let alloc = rt.alloc();
    let count = Cell::new(0);
    drop(SecretTlsVecU8::new(three(alloc, &count)?).into_vec());
    drop(SecretTlsVecU16::new(three(alloc, &count)?).into_vec());
    drop(SecretTlsVecU24::new(three(alloc, &count)?).into_vec());
    drop(SecretTlsVecU32::new(three(alloc, &count)?).into_vec());
    same(&rt, count.get(), 0);
    let probes: Vec<Probe> = SecretTlsVecU8::new(three(alloc, &count)?).into();
    same(&rt, probes.len(), 3);
    drop(probes);
    same(&rt, count.get(), 0);
    Ok(())
}

#[test]
fn elements_are_cleared_once(rt: HostRuntime) -> Result<(), Fail> {
    let alloc = rt.alloc();
    let count = Cell::new(0);
    let mut probes = three(alloc, &count)?;
    probes.zeroize();
    same(&rt, (probes.len(), count.replace(0)), (0, 3));
    let mut list = SecretTlsVecU8::new(three(alloc, &count)?);
    list.zeroize();
    same(&rt, (list.len(), count.get()), (0, 3));
    drop(list);
    same(&rt, count.get(), 3);
    Ok(())
}

#[test]
fn values_that_are_cleared(rt: HostRuntime) -> Result<(), Fail> {
    let alloc = rt.alloc();
    let (mut a, mut b, mut c, mut d) = (7u8, 7u16, 7u32, 7u64);
    a.zeroize();
    b.zeroize();
    c.zeroize();
    d.zeroize();
    same(&rt, (a, b, c, d), (0, 0, 0, 0));
    let mut bytes = [7u8; 3];
    bytes.zeroize();
    same(&rt, bytes, [0, 0, 0]);
    let mut numbers = [7u32, 8].to_vec(alloc)?;
    numbers.zeroize();
    same(&rt, numbers.len(), 0);
    let mut bytes = VLBytes::from_array(alloc, &[1, 2])?;
    bytes.zeroize();
    same(&rt, bytes.as_slice(), [].as_slice());
    let mut bytes = VLByteVec::from_array(alloc, &[1, 2])?;
    bytes.zeroize();
    same(&rt, bytes.as_slice(), [].as_slice());
    Ok(())
}
