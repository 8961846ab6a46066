//! The calls of `fs.rows`.
use crate::answers::{ended, got, listed, number, refused};
use crate::folder::Folder;
use crate::scanned::{passes, scanned, stamps};
use std::alloc::{AllocError, Global};
use std::rt::Clock;
use std::{fs, mem};
use tup_fs::{FsSite, OnceSite, Syncs};
use tup_path::Bytes;
use tup_rows::{Answers, RowFault, Words};
use tup_site::Site;
use tup_stamp::hex;

/// A folder, and the site over it.
#[derive(Drop)]
pub(crate) struct Session {
    folder: Folder,
    syncs: Syncs,
    site: OnceSite<HostRuntime>,
}

impl Answers for Session {
    fn answer(&mut self, alloc: Global, call: &str, said: &Words) -> Result<Words, RowFault> {
        Ok(match call {
            "begin" => self.begin(alloc, said.str_at(0), Syncs::Done),
            "once" => self.begin(alloc, said.str_at(0), Syncs::Once),
            "again" => self.again(alloc),
            "over" => self.over(alloc, said.str_at(0), Syncs::Done),
            "beside" => self.beside(alloc),
            "keep" => self.keep(alloc, said.number_at(0)),
            "leave" => self.leave(alloc),
            "noted" => self.noted(alloc, said),
            "stamps" => stamps(alloc, &mut self.site),
            "list" => listed(alloc, self.site.list(alloc)),
            "scan" => scanned(alloc, &mut self.site),
            "passes" => passes(alloc, &mut self.site),
            "faults" => Words::shown(alloc, &self.site.faults()),
            "said" => self.last(alloc),
            _ => self.answer_of_files(alloc, call, said),
        })
    }
}

impl Session {
    /// A site over a folder that is there.
    pub(crate) fn new(
        rt: HostRuntime,
        alloc: Global,
        place: &str,
        syncs: Syncs,
    ) -> Result<Session, AllocError> {
        let folder = Folder {
            rt,
            place: String::from_str(alloc, place)?,
        };
        let site = OnceSite::new(FsSite::new(rt, alloc, place, syncs)?);
        Ok(Session {
            folder,
            syncs,
            site,
        })
    }

    fn answer_of_files(&mut self, alloc: Global, call: &str, said: &Words) -> Words {
        match call {
            "get" => got(alloc, self.site.get(alloc, &said.path_at(alloc, 0))),
            "get_length" => self.get_length(alloc, said),
            "put" => self.put(alloc, said),
            "remove" => self.remove(alloc, said),
            "settle" => ended(alloc, self.site.settle(alloc)),
            "store_length" => number(alloc, self.site.db_len(alloc)),
            "store_read" => self.store_read(alloc, said),
            "store_write" => self.store_write(alloc, said),
            "store_cut" => ended(alloc, self.site.db_cut(alloc, said.number_at(0))),
            "store_sync" => ended(alloc, self.site.db_sync(alloc)),
            _ => self.folder.answer(alloc, call, said),
        }
    }

    /// Makes a folder, and begins a site over it.
    fn begin(&mut self, alloc: Global, name: &str, syncs: Syncs) -> Words {
        match fs::create_dir(&self.folder.rt, name) {
            Ok(()) => self.over(alloc, name, syncs),
            Err(_) => Words::none(alloc, RowFault::OtherKind),
        }
    }

    /// Begins a site over a folder that is there.
    fn over(&mut self, alloc: Global, place: &str, syncs: Syncs) -> Words {
        match Session::new(self.folder.rt, alloc, place, syncs) {
            Ok(session) => {
                *self = session;
                Words::done(alloc)
            }
            Err(_) => Words::none(alloc, RowFault::Memory),
        }
    }

    fn another(&self, alloc: Global) -> Result<FsSite<HostRuntime>, AllocError> {
        FsSite::new(
            self.folder.rt,
            alloc,
            self.folder.place.as_str(),
            self.syncs,
        )
    }

    /// Begins another site over the same folder, as the next run of the program does.
    fn again(&mut self, alloc: Global) -> Words {
        match self.another(alloc) {
            Ok(site) => {
                self.site = OnceSite::new(site);
                Words::done(alloc)
            }
            Err(_) => Words::none(alloc, RowFault::Memory),
        }
    }

    /// Asks another site over the same folder for the store's length, while this one is at work.
    fn beside(&mut self, alloc: Global) -> Words {
        match self.another(alloc) {
            Ok(mut other) => number(alloc, other.db_len(alloc)),
            Err(_) => Words::none(alloc, RowFault::Memory),
        }
    }

    /// Begins another site over the same folder, which keeps the stamps of files that were changed so many seconds ago.
    fn keep(&mut self, alloc: Global, seconds: u64) -> Words {
        let Ok(mut site) = self.another(alloc) else {
            return Words::none(alloc, RowFault::Memory);
        };
        let Ok(now) = self.folder.rt.since_1970() else {
            return Words::none(alloc, RowFault::OtherKind);
        };
        site.keep_stamps(now, seconds);
        self.site = OnceSite::new(site);
        Words::done(alloc)
    }

    /// Has the site write what it keeps, and begins another.
    fn leave(&mut self, alloc: Global) -> Words {
        match self.another(alloc) {
            Ok(site) => {
                mem::replace(&mut self.site, OnceSite::new(site)).leave();
                Words::done(alloc)
            }
            Err(_) => Words::none(alloc, RowFault::Memory),
        }
    }

    /// The stamp of a file, where the site knows it without reading the file.
    fn noted(&mut self, alloc: Global, said: &Words) -> Words {
        match self.site.noted(alloc, &said.path_at(alloc, 0)) {
            Ok(Some(stamp)) => Words::word(alloc, &hex(&stamp)),
            Ok(None) => Words::word(alloc, b"none"),
            Err(failed) => refused(alloc, failed),
        }
    }

    /// What the site says of its last failure.
    fn last(&self, alloc: Global) -> Words {
        match self.site.last() {
            Some(failure) => Words::shown(alloc, failure),
            None => Words::new(alloc),
        }
    }

    /// How long the content of a file is, for files that no row could hold.
    fn get_length(&mut self, alloc: Global, said: &Words) -> Words {
        match self.site.get(alloc, &said.path_at(alloc, 0)) {
            Ok(Some(content)) => Words::shown(alloc, &content.as_slice().len()),
            Ok(None) => Words::word(alloc, b"none"),
            Err(failed) => refused(alloc, failed),
        }
    }

    fn put(&mut self, alloc: Global, said: &Words) -> Words {
        let content = Bytes::new(said.bytes_at(alloc, 1));
        ended(
            alloc,
            self.site.put(alloc, &said.path_at(alloc, 0), &content),
        )
    }

    fn remove(&mut self, alloc: Global, said: &Words) -> Words {
        ended(alloc, self.site.remove(alloc, &said.path_at(alloc, 0)))
    }

    fn store_read(&mut self, alloc: Global, said: &Words) -> Words {
        match vec![in alloc; 0u8; (said.number_at(1) & 0xff) as usize] {
            Ok(mut bytes) => self.store_read_to(alloc, said, &mut bytes),
            Err(_) => Words::none(alloc, RowFault::Memory),
        }
    }

    fn store_read_to(&mut self, alloc: Global, said: &Words, bytes: &mut Vec<u8>) -> Words {
        match self.site.db_read(alloc, said.number_at(0), bytes) {
            Ok(()) => Words::word(alloc, bytes),
            Err(failed) => refused(alloc, failed),
        }
    }

    fn store_write(&mut self, alloc: Global, said: &Words) -> Words {
        let (at, bytes) = (said.number_at(0), said.word_at(1));
        ended(alloc, self.site.db_write(alloc, at, bytes))
    }
}
