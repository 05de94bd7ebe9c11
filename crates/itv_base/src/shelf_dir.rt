//! The real files.

ghost use Rattle.std.specs.Prelude.{◌≡◌, ◌<◌, ◌≤◌, [], None, IfOk, IfSome, OnOk, false, length, take};
ghost use Rattle.std.specs.Io.KnownBytes.{IsAtEnd};
ghost use Rattle.itv_base.specs.Step.{ReadsOn};

use crate::shelf::{FetchFault, Shelf};
use crate::text::{NoMemory, Text};
use std::alloc::Global;
use std::fs::File;
use std::io;
use std::io::{ErrorKind, Read};
use std::marker::Model;
use std::rt::Files;

/// The files of the system: a name is a path from the working directory. Contracts do not see the files.
#[derive(Drop)]
pub struct ShelfDir<R: Files + Drop> {
    runtime: R,
    faults: u64,
    last: Text,
}

impl<R: Files + Drop> Model for ShelfDir<R> {
    ghost use Rattle.itv_base.specs.Outside.{Failures};

    ghost Value = { Failures };

    ghost view = { λ s. record { faults = s.faults; last = s.last } };
}

impl<R: Files + Drop> ShelfDir<R> {
    /// The files that a runtime reaches. No fetch has failed yet.
    pub fn new(alloc: Global, runtime: R) -> Result<ShelfDir<R>, NoMemory>
        ensures fresh { IfOk result (λ s. s ≡ record { faults = 0; last = [] }) }
    {
        Ok(ShelfDir {
            runtime,
            faults: 0,
            last: Text::from_text(alloc, "")?,
        })
    }
}

// How many bytes one read takes.
const BLOCK: usize = 4_096;

// Puts one read at the end. Returns whether there may be more.
fn read_block<F: Read>(file: &mut F, bytes: &mut Vec<u8>, cap: usize) -> io::Result<bool>
    requires { length bytes.old.items < cap }
    ensures few { OnOk result (length bytes.new.items ≤ cap) }
    ensures next { OnOk result
        (ReadsOn (F.remaining file.old) (F.remaining file.new) bytes.old.items bytes.new.items) }
    ensures end { IfOk result (λ is_more. is_more ≡ false → IsAtEnd (F.remaining file.new)) }
{
    let mut block = [0u8; BLOCK];
    let wanted = BLOCK.min(cap - bytes.len());
    match file.read(&mut block[..wanted]) {
        Ok(0) => Ok(false),
        Ok(count) => {
            bytes.extend_from_slice(&block[..count])?;
            Ok(true)
        }
        Err(error) if error.kind() == ErrorKind::Interrupted => Ok(true),
        Err(error) => Err(error),
    }
}

// The first `cap` bytes that a reader has left, or all of them if there are fewer.
fn read_front<F: Read>(alloc: Global, file: &mut F, cap: usize) -> io::Result<Vec<u8>>
    ensures few { IfOk result (λ bytes. length bytes.items ≤ cap) }
    ensures front { IfOk result (λ bytes.
        IfSome (F.remaining file.old) (λ left. bytes.items ≡ take cap left)) }
{
    let mut bytes = Vec::new(alloc);
    for _ in 0..u64::MAX {
        if cap <= bytes.len() {
            return Ok(bytes);
        }
        if !read_block(file, &mut bytes, cap)? {
            return Ok(bytes);
        }
    }
    Err(io::Error::from(ErrorKind::Other))
}

// Opens a file and reads its front.
fn read_file<R: Files>(alloc: Global, runtime: &R, name: &str, cap: usize) -> io::Result<Vec<u8>>
    ensures few { IfOk result (λ bytes. length bytes.items ≤ cap) }
{
    let mut file = File::open(runtime, name)?;
    read_front(alloc, &mut file, cap)
}

impl<R: Files + Drop> Shelf for ShelfDir<R> {
    ghost state = { λ s. record { files = None; faults = s.faults; last = s.last; is_faithful = false } };

    fn fetch(&mut self, alloc: Global, name: &str, cap: u32) -> Result<Vec<u8>, FetchFault> {
        match read_file(alloc, &self.runtime, name, cap as usize) {
            Ok(bytes) => Ok(bytes),
            Err(error) if error.kind() == ErrorKind::OutOfMemory => Err(FetchFault::NoMemory),
            Err(_) => {
                let last = Text::from_text(alloc, name)?;
                self.last = last;
                self.faults = self.faults.saturating_add(1);
                Err(FetchFault::Failed)
            }
        }
    }
}
