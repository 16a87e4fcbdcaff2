// Files in memory.
ghost use Rattle.std.specs.Prelude.{◌≡◌, ◌≤◌, ◌+◌, ◌↔◌, option_copied, Some, IsTrue, IfSome, IfOk, OnOk, OnErr, IsErrOf};
ghost use Rattle.plan_ports.specs.InMemory.{ShelfView, EachGives, fresh_calls, first_named, after_open, after_close, open_fails, opened_under, shelf_state, source_state};
ghost use Rattle.plan_ports.specs.Outside.{FailsAt, IsOpened, LaterShelf};

use crate::calls::Calls;
use crate::memory::MemSource;
use crate::{PortFault, Shelf};
use std::alloc::Global;
use std::marker::Model;

/// A file in memory: its name, its bytes, how many bytes a take of it gives at most, and the numbers
/// of the takes that fail.
#[derive(Drop)]
pub struct MemFile {
    pub name: Vec<u8>,
    pub bytes: Vec<u8>,
    pub most: usize,
    pub fail: Vec<u32>,
}

/// A shelf of files in memory.
#[derive(Drop)]
pub struct MemShelf {
    alloc: Global,
    files: Vec<MemFile>,
    opens: Calls,
    lent: u64,
}

impl Model for MemShelf {
    ghost Value = { ShelfView };

    ghost view = { λ s. record { files = s.files.items; opens = s.opens; lent = s.lent } };

    ghost invariant = { λ s. EachGives s.files.items };
}

impl MemShelf {
    /// A shelf of these files. The opens whose numbers, from 0, stand in `fail` fail.
    pub fn new(alloc: Global, files: Vec<MemFile>, fail: Vec<u32>) -> MemShelf
        requires { EachGives files.items }
        ensures { result ≡ record { files = files.items; opens = fresh_calls fail.items; lent = 0 } }
    {
        MemShelf {
            alloc,
            files,
            opens: Calls::new(fail),
            lent: 0,
        }
    }

    /// How many files were lent that weren't given back.
    pub fn lent(&self) -> u64
        ensures { result ≡ self.now.lent }
    {
        self.lent
    }
}

impl Shelf for MemShelf {
    type File = MemSource;

    ghost state = { shelf_state };

    // The trait's clauses, then what only this shelf says.
    fn open(&mut self, name: &[u8]) -> Result<MemSource, PortFault>
        ensures opens { IfOk result (λ file. IsOpened name.now (shelf_state self.old) (source_state file)) }
        ensures failed { IsErrOf result PortFault.Failed →
            FailsAt name.now (shelf_state self.old) (shelf_state self.new) }
        ensures lent { OnOk result (self.new.lent ≡ self.old.lent + 1) }
        ensures kept { OnErr result (self.new.lent ≡ self.old.lent) }
        ensures later { LaterShelf (shelf_state self.old) (shelf_state self.new) }

        // It fails exactly at the opens that it was told and at unknown names.
        ensures fails { IsErrOf result PortFault.Failed ↔ IsTrue (open_fails name.now self.old) }
        ensures copies { IfOk result (λ file. opened_under name.now self.old ≡ Some file) }
        ensures after { self.new ≡ after_open name.now self.new.lent self.old }
    {
        if self.opens.next_fails() {
            return Err(PortFault::Failed);
        }
        let Some(file) = first_of(&self.files, name) else {
            self.opens.note_fault();
            return Err(PortFault::Failed);
        };
        let Some(lent) = self.lent.checked_add(1) else {
            return Err(PortFault::Memory);
        };
        let bytes = file.bytes.to_vec(self.alloc)?;
        let fail = file.fail.to_vec(self.alloc)?;
        let most = file.most;
        self.lent = lent;
        Ok(MemSource::new(bytes, most, fail))
    }

    fn close(&mut self, file: MemSource)
        ensures { self.new ≡ after_close file.calls.faults self.old }
    {
        self.lent = self.lent.saturating_sub(1);
        if file.faults() > 0 {
            self.opens.note_fault();
        }
    }
}

// The first file of a name.
fn first_of<'a>(files: &'a [MemFile], name: &[u8]) -> Option<&'a MemFile>
    requires { EachGives files.now }
    ensures first { option_copied result ≡ first_named name.now files.now }
    ensures gives { IfSome result (λ f. 1 ≤ f.now.most) }
{
    files.iter().find(|f| f.name.as_slice() == name)
}
