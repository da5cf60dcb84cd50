//! Files that are printed, written or compared.

use std::collections::BTreeSet;
use std::fs;
use std::process::ExitCode;
use std::rt::Files;
use tlsgen_model::emitted::Written;
use tlsgen_model::layout::first_difference;

/// Prints each file after a line with its path.
pub fn print<R: Print>(rt: &R, written: &[Written]) -> anyhow::Result<ExitCode> {
    for file in written {
        let path = file.path.as_str();
        let text = file.text.as_str();
        println!(rt; "=== {path}")?;
        print!(rt; "{text}")?;
    }
    Ok(ExitCode::SUCCESS)
}

// The status after a file that can't be written.
const UNWRITTEN: u8 = 2;

/// Writes each file into a folder, and makes the folders on its path. Prints which can't be written, and ends there.
pub fn write_to<R: Eprint + AllocGlobal + Files>(
    rt: &R,
    folder: &str,
    written: &[Written],
) -> anyhow::Result<ExitCode> {
    for file in written {
        let inner = file.path.as_str();
        let path = format!(in rt.alloc(); "{folder}/{inner}")?;
        if let Err(error) = write_file(rt, path.as_str(), file.text.as_str()) {
            eprintln!(rt; "{path}: {error}")?;
            return Ok(ExitCode::from(UNWRITTEN));
        }
    }
    Ok(ExitCode::SUCCESS)
}

fn write_file<R: Files>(rt: &R, path: &str, text: &str) -> anyhow::Result<()> {
    if let Some((parent, _name)) = path.rsplit_once('/') {
        fs::create_dir_all(rt, parent)?;
    }
    fs::write(rt, path, text)?;
    Ok(())
}

/// Compares each file with the file of its path in a folder, and prints the first line that
/// differs, or the first file there that isn't written.
pub fn compare_with<R: Print + AllocGlobal + Alloc + Files + Clone + Drop>(
    rt: &R,
    folder: &str,
    written: &[Written],
) -> anyhow::Result<ExitCode> {
    for file in written {
        let inner = file.path.as_str();
        let path = format!(in rt.alloc(); "{folder}/{inner}")?;
        let Ok(there) = fs::read_to_string(rt, path.as_str()) else {
            println!(rt; "{path}: can't be read")?;
            return Ok(ExitCode::from(1));
        };
        if let Some(line) = first_difference(file.text.as_bytes(), there.as_bytes()) {
            println!(rt; "{path}, line {line}: differs from what is written for the input")?;
            return Ok(ExitCode::from(1));
        }
    }
    if let Some(inner) = stale_file(rt, folder, written)? {
        println!(rt; "{folder}/{inner}: isn't written for the input")?;
        return Ok(ExitCode::from(1));
    }
    Ok(ExitCode::SUCCESS)
}

// The most folders of a crate that are looked into.
const MAX_FOLDERS: usize = 100_000;

// A file of a crate's folder that isn't written, by its path there.
fn stale_file<R: AllocGlobal + Alloc + Files + Clone + Drop>(
    rt: &R,
    folder: &str,
    written: &[Written],
) -> anyhow::Result<Option<String>> {
    let alloc = rt.alloc();
    let mut paths = BTreeSet::new(alloc);
    for file in written {
        paths.insert(file.path.clone()?)?;
    }
    let mut left = Vec::new(alloc);
    for part in ["src", "specs", "proofs"] {
        left.push(String::from_str(alloc, part)?)?;
    }
    for _ in 0..MAX_FOLDERS {
        let Some(inner) = left.pop() else {
            break;
        };
        if let Some(stale) = stale_in(rt, folder, inner.as_str(), &paths, &mut left)? {
            return Ok(Some(stale));
        }
    }
    Ok(None)
}

// The same in one folder, whose own folders are appended to those that are left. There is none in a folder that can't be read.
fn stale_in<R: AllocGlobal + Alloc + Files + Clone + Drop>(
    rt: &R,
    folder: &str,
    inner: &str,
    written: &BTreeSet<String>,
    left: &mut Vec<String>,
) -> anyhow::Result<Option<String>> {
    let alloc = rt.alloc();
    let path = format!(in alloc; "{folder}/{inner}")?;
    let Ok(entries) = fs::read_dir(rt, path.as_str()) else {
        return Ok(None);
    };
    for entry in entries {
        let entry = entry?;
        let name = entry.file_name();
        let own = format!(in alloc; "{inner}/{name}")?;
        if entry.file_type()?.is_dir() {
            left.push(own)?;
        } else if !written.contains(&own) {
            return Ok(Some(own));
        }
    }
    Ok(None)
}
