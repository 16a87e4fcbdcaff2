// Real files, standard input and standard output. They tell no bytes; contracts see of each only whether it is
// standard input, how many files were lent, and how many faults were counted.
ghost use Rattle.std.specs.Prelude.{◌≡◌, ◌≤◌, ℕ, true, length, IfErr, IfNone, IfOk, IfSome, IsErr, IsNone, IsOk, IsSome, IsUtf8, OnErr, OnOk, OnSome};
ghost use Rattle.plan_ports.specs.Edge.{OpenFile, OpenFiles, after_return, after_write, faulted, file_state, files_state, lending, output_state};
ghost use Rattle.plan_ports.specs.InMemory.{raised};
ghost use Rattle.plan_ports.specs.Streams.{IsOpenInput, is_input, is_input_name};

use crate::{Failed, PortFault, Shelf, Sink, Source};
use std::io::{Read, Write};
use std::marker::Model;
use std::rt::Files;
use std::{fs, io, str};

#[derive(Drop)]
enum Stream<F, I> {
    File(F),
    Input(I),
}

/// An open file, or standard input.
#[derive(Drop)]
pub struct FileSource<F, I> {
    from: Stream<F, I>,
    faults: u64,
}

impl<F, I> Model for FileSource<F, I> {
    ghost Value = { OpenFile };

    ghost view = { λ s. record { is_input = is_input s.from; faults = s.faults } };
}

impl<F: Read + Drop, I: Read + Drop> Source for FileSource<F, I> {
    ghost state = { file_state };

    fn take(&mut self, buf: &mut [u8]) -> Result<usize, Failed>
        ensures within { IfOk result (λ n. n ≤ length buf.old) }
        ensures stays { OnOk result (self.new ≡ self.old) }
        ensures rises { OnErr result (self.new ≡ record self.old { faults = raised self.old.faults }) }
    {
        let read = match &mut self.from {
            Stream::File(file) => file.read(buf),
            Stream::Input(input) => input.read(buf),
        };
        match read {
            Ok(n) => Ok(n),
            Err(_) => {
                self.faults = self.faults.saturating_add(1);
                Err(Failed)
            }
        }
    }
}

/// Files by name, and standard input under the name `@`. A name that isn't UTF-8 can't be opened.
#[derive(Drop)]
pub struct FileShelf<'a, H: Files + Input> {
    rt: &'a H,
    lent: u64,
    faults: u64,
}

impl<'a, H: Files + Input> Model for FileShelf<'a, H> {
    ghost Value = { OpenFiles };

    ghost view = { λ s. record { lent = s.lent; faults = s.faults } };
}

impl<'a, H: Files + Input> FileShelf<'a, H> {
    pub fn new(rt: &'a H) -> FileShelf<'a, H>
        ensures { result ≡ record { lent = 0; faults = 0 } }
    {
        FileShelf {
            rt,
            lent: 0,
            faults: 0,
        }
    }

    // The stream under a name, counted as lent; none where it can't be opened, or the count can't rise.
    fn lend(&mut self, name: &[u8]) -> Option<Stream<H::File, H::Reader>>
        ensures input { IfSome result (λ from. is_input from ≡ is_input_name name.now) }
        ensures unreadable { ¬ (IsUtf8 name.now) → IsNone result }
        ensures lends { OnSome result (self.new ≡ lending self.old) }
        ensures stays { IfNone result (self.new ≡ self.old) }
        ensures always { IsOpenInput name.now self.old → IsSome result }
    {
        let lent = self.lent.checked_add(1)?;
        let from = open_stream(self.rt, name)?;
        self.lent = lent;
        Some(from)
    }
}

impl<'a, H: Files + Input> Shelf for FileShelf<'a, H> {
    type File = FileSource<H::File, H::Reader>;

    ghost state = { files_state };

    fn open(&mut self, name: &[u8]) -> Result<FileSource<H::File, H::Reader>, PortFault>
        ensures opens { IfOk result (λ file. file ≡ record { is_input = is_input_name name.now; faults = 0 }) }
        ensures lends { OnOk result (self.new ≡ lending self.old) }
        ensures rises { OnErr result (self.new ≡ faulted self.old) }
        ensures failed { IfErr result (λ e. e ≡ PortFault.Failed) }

        // A name that isn't UTF-8 opens nothing; standard input always opens, while the count can rise.
        ensures unreadable { ¬ (IsUtf8 name.now) → IsErr result }
        ensures always { IsOpenInput name.now self.old → IsOk result }
    {
        match self.lend(name) {
            Some(from) => Ok(FileSource { from, faults: 0 }),
            None => {
                self.faults = self.faults.saturating_add(1);
                Err(PortFault::Failed)
            }
        }
    }

    fn close(&mut self, file: FileSource<H::File, H::Reader>)
        ensures { self.new ≡ after_return file.faults self.old }
    {
        self.lent = self.lent.saturating_sub(1);
        if file.faults > 0 {
            self.faults = self.faults.saturating_add(1);
        }
    }
}

// What stands under a name, where it can be opened.
fn open_stream<H: Files + Input>(rt: &H, name: &[u8]) -> Option<Stream<H::File, H::Reader>>
    ensures input { IfSome result (λ from. is_input from ≡ is_input_name name.now) }
    ensures unreadable { ¬ (IsUtf8 name.now) → IsNone result }
    ensures always { is_input_name name.now ≡ true → IsSome result }
{
    if name == b"@".as_slice() {
        return Some(Stream::Input(rt.reader()));
    }
    let Ok(path) = str::from_utf8(name) else {
        return None;
    };
    let file = fs::open(rt, path).ok()?;
    Some(Stream::File(file))
}

/// Standard output.
#[derive(Drop)]
pub struct OutSink<'a, H: Print> {
    rt: &'a H,
    faults: u64,
}

impl<'a, H: Print> Model for OutSink<'a, H> {
    ghost Value = { ℕ };

    ghost view = { λ s. s.faults };
}

impl<'a, H: Print> OutSink<'a, H> {
    pub fn new(rt: &'a H) -> OutSink<'a, H>
        ensures { result ≡ 0 }
    {
        OutSink { rt, faults: 0 }
    }
}

impl<'a, H: Print> Sink for OutSink<'a, H> {
    ghost state = { output_state };

    fn put(&mut self, piece: &[u8]) -> Result<usize, PortFault>
        ensures within { IfOk result (λ n. n ≤ length piece.now) }
        ensures counts { IfOk result (λ n. self.new ≡ after_write n (length piece.now) self.old) }
        ensures rises { OnErr result (self.new ≡ raised self.old) }
        ensures failed { IfErr result (λ e. e ≡ PortFault.Failed) }
    {
        match io::writer(self.rt).write(piece) {
            Ok(n) => {
                if n == 0 && !piece.is_empty() {
                    self.faults = self.faults.saturating_add(1);
                }
                Ok(n)
            }
            Err(_) => {
                self.faults = self.faults.saturating_add(1);
                Err(PortFault::Failed)
            }
        }
    }
}
