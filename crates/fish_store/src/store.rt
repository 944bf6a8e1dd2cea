//! A store as one value: the log with its control pass and its registrar, and what is kept of the file.

ghost use Rattle.fish_store.specs.Opened.{IsOfOpened, opened_point};
ghost use Rattle.fish_store.specs.Points.{point_of};

use crate::file::StoreFile;
use fish_recover::Opened;
use fish_registry::Registrar;
use fish_rule::{Log, Pass};

/// An open store.
#[derive(Drop)]
pub struct Store {
    /// The log in memory.
    pub log: Log,
    /// Its control pass.
    pub pass: Pass,
    /// The definitions, as the control pass changes them.
    pub registrar: Registrar,
    /// What is kept of the file.
    pub file: StoreFile,
}

impl Store {
    /// The store that was opened.
    pub fn of_opened(opened: Opened) -> Store
        ensures { IsOfOpened opened result }
    {
        let Opened {
            log,
            pass,
            flusher,
            catalog,
            cold,
            ..
        } = opened;
        Store {
            log,
            pass,
            registrar: Registrar::new(catalog),
            file: StoreFile { flusher, cold },
        }
    }
}
