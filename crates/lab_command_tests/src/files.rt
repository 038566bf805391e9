//! Files held in memory.

use crate::case::{Task, with_files};
use crate::streams::Sink;
use lab_streams::RunFault;
use std::alloc::{Allocator, Global};
use std::fs::{Metadata, OpenFile, OpenOptions};
use std::io::{Error, ErrorKind, Read, Result as IoResult, Seek, SeekFrom, Write};
use std::rt::Files;
use std::sync::Wait;
use std::sync::atomic::{AtomicBool, AtomicU32, Ordering};
use std::thread::Threads;

/// What a call is refused with that nobody is to make.
fn unsupported() -> Error {
    Error::from(ErrorKind::Unsupported)
}

/// A writer that tells when it was called first.
#[derive(Drop)]
pub struct Telling<'a> {
    pub sink: Sink,
    pub is_called: &'a AtomicBool,
}

impl<'a> Write for Telling<'a> {
    fn write(&mut self, buf: &[u8]) -> IoResult<usize> {
        self.is_called.store(true, Ordering::SeqCst);
        self.sink.write(buf)
    }

    fn flush(&mut self) -> IoResult<()> {
        self.sink.flush()
    }
}

/// A file that stands in memory. Its opening and then each read of it count as calls: one of them may fail, and from one
/// on the file holds another text.
#[derive(Clone, Copy)]
pub struct Held {
    pub name: &'static str,
    pub text: &'static [u8],
    pub other: &'static [u8],
    pub turns_at: u32,
    pub fails_at: u32,
    pub fault: ErrorKind,
}

impl Held {
    /// A file that holds one text, and of which no call fails.
    pub fn new(name: &'static str, text: &'static [u8]) -> Held {
        Held {
            name,
            text,
            other: text,
            turns_at: u32::MAX,
            fails_at: 0,
            fault: ErrorKind::Other,
        }
    }
}

/// Files that stand in memory. A read gives so many bytes at the most, and each second one may be interrupted. None is
/// opened or read any more once `is_written` tells that something was written.
#[derive(Drop)]
pub struct HeldFiles<'a, R> {
    pub rt: &'a R,
    pub held: &'a [Held],
    pub step: usize,
    pub is_interrupted: bool,
    /// How many times one of them was opened.
    pub openings: &'a AtomicU32,
    pub is_written: &'a AtomicBool,
}

impl<'a, R> HeldFiles<'a, R> {
    /// The file of a name.
    fn named(&self, name: &str) -> Option<Held> {
        for held in self.held {
            if held.name == name {
                return Some(*held);
            }
        }
        None
    }
}

/// One of them that was opened.
#[derive(Drop)]
pub struct HeldFile<'a> {
    held: Held,
    place: usize,
    calls: u32,
    step: usize,
    is_interrupted: bool,
    is_written: &'a AtomicBool,
}

impl<'a> HeldFile<'a> {
    /// Whether the call that is made is an interrupted one.
    fn is_call_interrupted(&self) -> bool {
        self.is_interrupted && self.calls % 2 == 0
    }

    /// What the file holds from the place on to which it was read.
    fn rest(&self) -> &'static [u8] {
        let text = if self.calls < self.held.turns_at {
            self.held.text
        } else {
            self.held.other
        };
        &text[self.place.min(text.len())..]
    }
}

impl<'a> Read for HeldFile<'a> {
    fn read(&mut self, buf: &mut [u8]) -> IoResult<usize> {
        self.calls = self.calls.saturating_add(1);
        if self.is_written.load(Ordering::SeqCst) {
            return Err(unsupported());
        }
        if self.is_call_interrupted() {
            return Err(Error::from(ErrorKind::Interrupted));
        }
        if self.calls == self.held.fails_at {
            return Err(Error::from(self.held.fault));
        }
        let rest = self.rest();
        let count = self.step.min(rest.len()).min(buf.len());
        buf[..count].copy_from_slice(&rest[..count]);
        self.place = self.place.saturating_add(count);
        Ok(count)
    }
}

impl<'a> Write for HeldFile<'a> {
    fn write(&mut self, _buf: &[u8]) -> IoResult<usize> {
        Err(unsupported())
    }

    fn flush(&mut self) -> IoResult<()> {
        Err(unsupported())
    }
}

impl<'a> Seek for HeldFile<'a> {
    fn seek(&mut self, _to: SeekFrom) -> IoResult<u64> {
        Err(unsupported())
    }
}

impl<'a> OpenFile for HeldFile<'a> {
    fn metadata(&self) -> IoResult<Metadata> {
        Err(unsupported())
    }

    fn set_len(&self, _size: u64) -> IoResult<()> {
        Err(unsupported())
    }

    fn sync_all(&self) -> IoResult<()> {
        Err(unsupported())
    }

    fn sync_data(&self) -> IoResult<()> {
        Err(unsupported())
    }
}

impl<'a, R: Threads> Threads for HeldFiles<'a, R> {}

impl<'a, R: Wait> Wait for HeldFiles<'a, R> {}

impl<'a, R> Files for HeldFiles<'a, R> {
    type File = HeldFile<'a>;

    type Dir = HeldFile<'a>;

    fn open_file(&self, _how: &OpenOptions, path: &str) -> IoResult<HeldFile<'a>> {
        self.openings.fetch_add(1, Ordering::SeqCst);
        if self.is_written.load(Ordering::SeqCst) {
            return Err(unsupported());
        }
        let Some(held) = self.named(path) else {
            return Err(Error::from(ErrorKind::NotFound));
        };
        if held.fails_at == 1 {
            return Err(Error::from(held.fault));
        }
        Ok(HeldFile {
            held,
            place: 0,
            calls: 1,
            step: self.step,
            is_interrupted: self.is_interrupted,
            is_written: self.is_written,
        })
    }

    fn open_dir(&self, _path: &str) -> IoResult<HeldFile<'a>> {
        Err(unsupported())
    }

    fn metadata(&self, _path: &str) -> IoResult<Metadata> {
        Err(unsupported())
    }

    fn symlink_metadata(&self, _path: &str) -> IoResult<Metadata> {
        Err(unsupported())
    }

    fn copy(&self, _from: &str, _to: &str) -> IoResult<u64> {
        Err(unsupported())
    }

    fn rename(&self, _from: &str, _to: &str) -> IoResult<()> {
        Err(unsupported())
    }

    fn remove_file(&self, _path: &str) -> IoResult<()> {
        Err(unsupported())
    }

    fn create_dir(&self, _path: &str) -> IoResult<()> {
        Err(unsupported())
    }

    fn remove_dir(&self, _path: &str) -> IoResult<()> {
        Err(unsupported())
    }

    fn remove_dir_all<B: Allocator>(&self, _alloc: B, _path: &str) -> IoResult<()> {
        Err(unsupported())
    }
}

/// What is done with which files that stand in memory, how they are read, which call on the hints and on the line of
/// progress fails, and with what that line is to end.
#[derive(Clone, Copy)]
pub struct FileRun<'a> {
    pub held: &'a [Held],
    pub step: usize,
    pub is_interrupted: bool,
    pub task: Task,
    pub names: &'a [&'a str],
    pub fails_at: u32,
    pub shown: &'a [u8],
}

/// What such a run came to: how it ended, how many times a file was opened, the bytes of its hints, and whether the line
/// of progress ended so.
#[derive(Clone, Copy)]
pub struct FilesRan {
    pub run: Result<u8, RunFault>,
    pub openings: u32,
    pub noted: usize,
    pub is_shown: bool,
}

/// Makes such a run. No file is opened or read any more once `is_written` tells that something was written.
pub fn ran_on_files<T: Threads + Wait + Sync, W: Write>(
    rt: &T,
    alloc: Global,
    of: FileRun<'_>,
    is_written: &AtomicBool,
    writer: &mut W,
) -> FilesRan {
    let openings = AtomicU32::new(0);
    let files = HeldFiles {
        rt,
        held: of.held,
        step: of.step,
        is_interrupted: of.is_interrupted,
        openings: &openings,
        is_written,
    };
    let mut notes = Sink::new(alloc, 9_000, of.fails_at);
    let mut shown = Sink::new(alloc, 9_000, of.fails_at);
    let run = with_files(
        &files, alloc, of.task, of.names, writer, &mut notes, &mut shown,
    );
    let noted = notes.text.len();
    let is_shown = shown.text.ends_with(of.shown);
    drop(notes);
    drop(shown);
    FilesRan {
        run,
        openings: openings.load(Ordering::SeqCst),
        noted,
        is_shown,
    }
}
