//! A disk whose reads are counted.

use fish_disk::Disk;
use fish_outside::Failed;

/// A disk, and how often it was read.
#[derive(Drop)]
pub struct Counted<D: Disk> {
    disk: D,
    reads: u64,
}

impl<D: Disk> Counted<D> {
    /// A disk that wasn't read since.
    pub fn of(disk: D) -> Counted<D> {
        Counted { disk, reads: 0 }
    }

    /// How often it was read.
    pub fn reads(&self) -> u64 {
        self.reads
    }
}

impl<D: Disk> Disk for Counted<D> {
    ghost content = { λ counted. D.content counted.disk };

    ghost images = { λ counted. D.images counted.disk };

    ghost moment = { λ counted. D.moment counted.disk };

    ghost since = { λ counted. D.since counted.disk };

    ghost keeps_past = { D.keeps_past };

    ghost faults = { λ counted. D.faults counted.disk };

    ghost counts_now = { λ counted. D.counts_now counted.disk };

    ghost only_now = { λ counted. D.only_now counted.disk };

    ghost fewer_later = { λ counted. D.fewer_later counted.disk };

    ghost as_read = { λ counted. D.as_read counted.disk };

    ghost told = { λ counted. D.told counted.disk };

    fn read(&mut self, at: u64, buf: &mut [u8]) -> Result<usize, Failed> {
        self.reads = self.reads.saturating_add(1);
        self.disk.read(at, buf)
    }

    fn write_at(&mut self, at: u64, piece: &[u8]) -> Result<(), Failed> {
        self.disk.write_at(at, piece)
    }

    fn sync(&mut self) -> Result<(), Failed> {
        self.disk.sync()
    }

    fn length(&mut self) -> Result<u64, Failed> {
        self.disk.length()
    }
}
