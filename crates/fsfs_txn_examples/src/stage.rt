// A repository in memory, the transactions on it, and the calls of a line.
use crate::book::book_over;
use crate::cast::Cast;
use crate::files::{failing, put, show, show_folder};
use crate::landing::land;
use fsfs_example_calls::{begin_on, look};
use fsfs_fetch::disk_of;
use fsfs_memory::{MemBench, MemDisk, Transcript, cut};
use std::alloc::Global;
use std::sync::Wait;
use std::thread::Threads;

/// A repository in memory, with its transactions.
#[derive(Drop)]
pub struct Stage {
    alloc: Global,
    disk: MemDisk,
    cast: Cast<MemBench>,
}

impl Stage {
    /// An empty disk.
    pub fn new(alloc: Global) -> Stage {
        Stage {
            alloc,
            disk: MemDisk::new(alloc),
            cast: Cast::new(alloc),
        }
    }

    fn begin(self, word: &str, out: &mut Transcript) -> Stage {
        let Stage { alloc, disk, cast } = self;
        let mut cast = cast;
        let (disk, begun) = begin_on(alloc, disk, word, out);
        cast.add(begun, out);
        Stage { alloc, disk, cast }
    }

    fn land(self, word: &str, out: &mut Transcript) -> Stage {
        let Stage { alloc, disk, cast } = self;
        let mut cast = cast;
        let Some(txn) = cast.take() else {
            out.say("? no transaction");
            return Stage { alloc, disk, cast };
        };
        let (disk, left) = land(alloc, disk, txn, word, out);
        cast.put_back(left);
        Stage { alloc, disk, cast }
    }

    // `folder NAME ..`
    fn show_folder(&mut self, names: &str, out: &mut Transcript) {
        match self.cast.take() {
            Some(txn) => show_folder(txn, names, out),
            None => out.say("? no transaction"),
        }
    }

    fn edit(self, line: &str, out: &mut Transcript) -> Stage {
        let Stage { alloc, disk, cast } = self;
        let mut cast = cast;
        let disk = match book_over(alloc, disk, out) {
            Ok(mut book) => {
                cast.call(alloc, &mut book, line, out);
                disk_of(book)
            }
            Err(disk) => disk,
        };
        Stage { alloc, disk, cast }
    }

    fn look<T: Threads + Wait + Sync>(self, rt: &T, words: &str, out: &mut Transcript) -> Stage {
        let Stage { alloc, disk, cast } = self;
        let disk = look(rt, alloc, disk, words, out);
        Stage { alloc, disk, cast }
    }

    /// The same, where this call of each bench that is made from here on fails.
    pub fn failing(self, number: u64, out: &mut Transcript) -> Stage {
        let Stage { alloc, disk, cast } = self;
        let disk = failing(alloc, disk, number, out);
        Stage { alloc, disk, cast }
    }

    /// Makes the calls of a line, and writes what they answer.
    pub fn call<T: Threads + Wait + Sync>(
        mut self,
        rt: &T,
        line: &str,
        out: &mut Transcript,
    ) -> Stage {
        let (word, rest) = cut(line);
        match word {
            "file" => put(self.alloc, &mut self.disk, rest, out),
            "show" => show(&self.disk, rest, out),
            "folder" => self.show_folder(rest, out),
            "begin" => return self.begin(rest, out),
            "svnlook" => return self.look(rt, rest, out),
            "final" => return self.land(word, out),
            "commit" => return self.land(word, out),
            _ => return self.edit(line, out),
        }
        self
    }
}
