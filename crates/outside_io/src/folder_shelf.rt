// The files of the folder in which the program runs, as a shelf. It notes its answers, for contracts alone.
ghost use Rattle.std.specs.Prelude.{◌≡◌, ◌⊎◌, ℕ, ◌<◌, ◌≤◌, ◌++◌, ◌∷◌, [], None, Some, Option, List, length, vec_len, IfOk, OnOk, IfErr, IsSomeAnd, IsErrOf};
ghost use Rattle.memory_requests.specs.Evidence.{a_refusal};
ghost use Rattle.outside_io.specs.Faults.{Rose};
ghost use Rattle.outside_io.specs.FileNames.{IsName};
ghost use Rattle.outside_io.specs.Streams.{GivesMore};
ghost use Rattle.outside_io.specs.Shelves.{Files, Agrees, KeepsAnswer, no_files};

use crate::answers::Answers;
use crate::asked_names::AskedNames;
use crate::shelves::SHELF_LIMIT;
use crate::{FetchFault, ReadAllFault, Shelf, Source, StdSource, read_all};
use std::alloc::Global;
use std::fs::File;
use std::io::ErrorKind;
use std::rt::Files;

/// Fetches files of the folder in which the program runs.
#[derive(Drop)]
pub struct FolderShelf<R: Files> {
    files: R,
    faults: u64,
    answers: Answers,
    asked: AskedNames,
}

impl<R: Files> FolderShelf<R> {
    /// It had no fault so far, and was asked nothing.
    pub fn new(files: R) -> FolderShelf<R>
        ensures faults { result.faults ≡ 0 }
        ensures answers { result.answers ≡ [] }
        ensures asked { result.asked ≡ [] }
    {
        FolderShelf {
            files,
            faults: 0,
            answers: Answers::new(),
            asked: AskedNames::new(),
        }
    }
}

impl<R: Files> Shelf for FolderShelf<R> {
    ghost faults = { λ s. s.faults };

    ghost files = { λ s. None };

    ghost agrees = { λ s at. Agrees s.answers at };

    ghost asked = { λ s. s.asked };

    ghost agrees_with_files = { λ s at same. no_files at (Agrees s.answers at) same };

    fn faults(&self) -> u64 {
        self.faults
    }

    fn fetch(&mut self, alloc: Global, name: &str) -> Result<Vec<u8>, FetchFault>
        requires name { IsName name.now }
        ensures agreed { (at : Files) → Agrees self.new.answers at → Agrees self.old.answers at }
        ensures found { (at : Files) → Agrees self.new.answers at
            → IfOk result (λ bytes. at name.now ≡ Some bytes.items) }
        ensures within { IfOk result (λ bytes. vec_len bytes ≤ SHELF_LIMIT) }
        ensures absent { (at : Files) → Agrees self.new.answers at
            → IsErrOf result FetchFault.Absent → at name.now ≡ None }
        ensures too_long { (at : Files) → Agrees self.new.answers at
            → IsErrOf result FetchFault.TooLong
            → IsSomeAnd (at name.now) (λ bytes. SHELF_LIMIT < length bytes) }
        ensures failed { IsErrOf result FetchFault.Failed → Rose self.old.faults self.new.faults }
        ensures counted { self.old.faults < self.new.faults → IsErrOf result FetchFault.Failed }
        ensures later { self.old.faults ≤ self.new.faults }
        ensures asked { self.new.asked ≡ name.now ∷ self.old.asked }
        ensures kept { KeepsAnswer name.now result self.old.answers self.new.answers }
    {
        self.asked.note(name);
        // Opens the file with this name, once, and reads it to its end.
        let answer = read_file(&self.files, alloc, name);
        // What the system said of the name is noted under that name. A fault and want of memory say nothing of the file.
        match &answer {
            Ok(bytes) => self.answers.note_found(name, bytes),
            Err(FetchFault::Absent) => self.answers.note_absent(name),
            Err(FetchFault::TooLong) => self.answers.note_too_long(name),
            Err(FetchFault::Failed) => self.faults = self.faults.saturating_add(1),
            Err(FetchFault::NoMemory(_)) => {}
        }
        answer
    }
}

// The bytes of a file that the system opens under this name, as it gives them up to their end.
fn read_file<R: Files>(files: &R, alloc: Global, name: &str) -> Result<Vec<u8>, FetchFault>
    ensures within { IfOk result (λ bytes. vec_len bytes ≤ SHELF_LIMIT) }
{
    let file = open_file(files, name)?;
    read_open(alloc, &mut StdSource::new(file))
}

// No memory is taken for that.
fn open_file<R: Files>(files: &R, name: &str) -> Result<R::File, FetchFault>
    ensures unopened { IfErr result (λ fault. (fault ≡ FetchFault.Absent) ⊎ (fault ≡ FetchFault.Failed)) }
{
    match File::open(files, name) {
        Ok(file) => Ok(file),
        Err(e) if e.kind() == ErrorKind::NotFound => Err(FetchFault::Absent),
        Err(_) => Err(FetchFault::Failed),
    }
}

// Want of memory is told only where there were bytes, and a fault just where the source had one.
fn read_open<S: Source>(alloc: Global, source: &mut S) -> Result<Vec<u8>, FetchFault>
    ensures within { IfOk result (λ bytes. vec_len bytes ≤ SHELF_LIMIT) }
    ensures all_given { IfOk result (λ bytes. S.given source.new ≡ S.given source.old ++ bytes.items) }
    ensures ended { OnOk result (S.ended source.new) }
    ensures present { IsErrOf result FetchFault.Absent → ⊥ }
    ensures too_long { IsErrOf result FetchFault.TooLong
        → GivesMore SHELF_LIMIT (S.given source.old) (S.given source.new) }
    ensures failed { IsErrOf result FetchFault.Failed → Rose (S.faults source.old) (S.faults source.new) }
    ensures counted { S.faults source.old < S.faults source.new → IsErrOf result FetchFault.Failed }
    ensures memory { IsErrOf result (FetchFault.NoMemory a_refusal) → GivesMore 0 (S.given source.old) (S.given source.new) }
{
    match read_all(alloc, source, SHELF_LIMIT) {
        Ok(bytes) => Ok(bytes),
        Err(ReadAllFault::TooLong) => Err(FetchFault::TooLong),
        Err(ReadAllFault::NoMemory(lack)) => Err(FetchFault::NoMemory(lack)),
        Err(ReadAllFault::ReadFault) => Err(FetchFault::Failed),
    }
}
