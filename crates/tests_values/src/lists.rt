//! Bytes, numbers and paths: what was put in comes out in order.

use crate::expecting::expect;
use fish_value::{Bytes, Numbers, Path, Text};
use std::alloc::{AllocError, Global};
use std::test::Fail;

/// Pieces that are appended to two bytes one after the other.
const PIECES: &[&[u8]] = &[b"", b"bc", b""];

/// To how many they are then cut.
const LENGTHS: &[usize] = &[3, 9, 1];

/// Bytes as numbers, and how many they are.
fn put_bytes(alloc: Global, told: &mut String, bytes: &Bytes) -> Result<(), AllocError> {
    let text = format!(in alloc; "{:?} {}, ", bytes.as_bytes(), bytes.len())?;
    told.push_str(text.as_str())?;
    told.push_str(if bytes.is_empty() { "empty; " } else { "" })
}

/// Puts a second copy of them after a text.
fn put_again(alloc: Global, told: &mut String, bytes: &Bytes) -> Result<(), AllocError> {
    let again = bytes.again(alloc)?;
    put_bytes(alloc, told, &again)
}

fn bytes_told(alloc: Global) -> Result<String, AllocError> {
    let mut told = String::new(alloc);
    put_bytes(alloc, &mut told, &Bytes::new(alloc))?;
    let mut bytes = Bytes::copy_of(alloc, b"a\xff")?;
    for piece in PIECES {
        bytes.append(piece)?;
        put_again(alloc, &mut told, &bytes)?;
    }
    for len in LENGTHS {
        bytes.truncate(*len);
        put_bytes(alloc, &mut told, &bytes)?;
    }
    put_bytes(alloc, &mut told, &Bytes::with_room(alloc, 2)?)?;
    Ok(told)
}

#[test]
fn bytes(rt: HostRuntime) -> Result<(), Fail> {
    let told = bytes_told(rt.alloc())?;
    let want = "[] 0, empty; [97, 255] 2, [97, 255, 98, 99] 4, [97, 255, 98, 99] 4, \
        [97, 255, 98] 3, [97, 255, 98] 3, [97] 1, [] 0, empty; ";
    expect(&rt, told.as_str(), want);
    Ok(())
}

/// Numbers from the last to the first, and whether there were none before and are none then.
fn turned_round(alloc: Global, numbers: &[u32]) -> Result<String, AllocError> {
    let mut list = Numbers::new(alloc);
    let none = list.is_empty();
    for number in numbers {
        list.push(*number)?;
    }
    list.reverse();
    let (len, none_then) = (list.len(), list.is_empty());
    format!(in alloc; "{none} {:?} {len} {none_then}", list.as_slice())
}

#[test]
fn numbers(rt: HostRuntime) -> Result<(), Fail> {
    let told = turned_round(rt.alloc(), &[1, 2, 3])?;
    expect(&rt, told.as_str(), "true [3, 2, 1] 3 false");
    Ok(())
}

/// The path of names.
fn path_of(alloc: Global, first: &str, more: &[&str]) -> Result<Path, AllocError> {
    let text = Text::copy_of(alloc, first)?;
    let mut path = Path::new(alloc, text.again(alloc)?);
    for name in more {
        path.push(Text::copy_of(alloc, name)?)?;
    }
    Ok(path)
}

/// The names of a path, each with a bar after it, and whether the first is a text.
fn names_of(alloc: Global, path: &Path, text: &Text) -> Result<String, AllocError> {
    let (first, more) = path.parts();
    let mut told = format!(in alloc; "{} {}|", first.is(text), first.as_str())?;
    for name in more {
        told.push_str(name.as_str())?;
        told.push('|')?;
    }
    Ok(told)
}

fn path_told(alloc: Global) -> Result<String, AllocError> {
    let text = Text::copy_of(alloc, "a")?;
    let path = path_of(alloc, "a", &["b c", ""])?;
    names_of(alloc, &path, &text)
}

#[test]
fn paths(rt: HostRuntime) -> Result<(), Fail> {
    let told = path_told(rt.alloc())?;
    expect(&rt, told.as_str(), "true a|b c||");
    Ok(())
}
