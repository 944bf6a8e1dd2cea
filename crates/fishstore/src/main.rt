//! FishStore: a storage layer for raw records of flexible schema.
//!
//! The program runs the command that the words of its process are over the files of the system, the file
//! of the store that they name and standard output, tells of a fault, and ends with the status of the run.
#![tactic(auto)]

mod args;

use args::{store_of, words_of};
use fish_disk::FileDisk;
use fish_outside::{FileHost, OutSink, keep_freed_memory};
use fish_program::{Fault, Outcome, run};
use std::env;
use std::fs::File;
use std::process::ExitCode;

fn main(rt: HostRuntime) -> ExitCode {
    // Where a standard stream is closed, the next file that is opened would take its place, and the
    // report be written into the store. A folder there is neither read nor written.
    let _places = [
        File::open(&rt, "/"),
        File::open(&rt, "/"),
        File::open(&rt, "/"),
    ];
    keep_freed_memory(rt.alloc());
    let outcome = match words_of(rt.alloc(), env::args(&rt)) {
        Ok(words) => match store_of(rt.alloc(), words.as_slice()) {
            Ok(store) => run(
                &rt,
                rt.alloc(),
                words.as_slice(),
                &mut FileHost::new(rt),
                // The file is opened at the first call, so a command without a store touches none.
                &mut FileDisk::at(rt, store),
                &mut OutSink::new(rt),
            ),
            Err(want) => Outcome::failed(rt.alloc(), Fault::from(want)),
        },
        Err(fault) => Outcome::failed(rt.alloc(), fault),
    };
    if let Some(fault) = outcome.told() {
        // Where standard error is closed, the status still tells.
        let _ = rt.eprintln(fault);
    }
    let code = outcome.exit_code();
    drop(outcome);
    code
}
