ghost use Rattle.std.specs.Prelude.{◌≡◌, ◌≢◌, ◌≤◌, ◌^◌, ◌/◌, ◌-◌, ◌++◌, ◌∷◌, ℕ, min, List, take, length, IsTrue, IfOk, IsSome, IfSome, OnOk, OnErr, Some, []};
ghost use Rattle.std.specs.Ordering.{nat_cmp};
ghost use Rattle.std.specs.Cmp.Lexicographic.{slice_cmp};
ghost use Rattle.std.specs.BTreeMap.{is_at};
ghost use Rattle.std.specs.Map.{keys_of, lookup};
ghost use Rattle.gl_desk.specs.Desk.{ListsNames, ReadsFrom};
ghost use Rattle.gl_desk.specs.MemDesk.{all_differ, stored, files_in, files_of};
ghost use Rattle.gl_desk.specs.Code.MemDesk.{given_files, with_piece};

use crate::calls::Calls;
use crate::desk::Desk;
use crate::error::DeskError;
use crate::mem_file::{MemFile, copy_from};
use crate::name::Name;
use crate::piece_limit::PieceLimit;
use std::alloc::{AllocError, Global};
use std::collections::BTreeMap;

/// A desk in memory, which tells everything, and whose calls fail where they are told to.
#[derive(Drop)]
pub struct MemDesk {
    files: BTreeMap<Name, MemFile>,
    said: Vec<u8>,
    calls: Calls,
    limit: PieceLimit,
}

impl MemDesk {
    ghost use Rattle.std.specs.Option.{option_copied};
    ghost use Rattle.gl_desk.specs.MemDesk.{files_of, outputs_of, said_to, faults_of, calls_of, failing_of, most_of, HoldsFiles};

    /// A desk with these files, whose k-th call, counted from 1, fails where `failing` holds k. One
    /// call reads as many bytes as there is room for.
    pub fn new(
        alloc: Global,
        files: Vec<(Name, Vec<u8>)>,
        failing: Vec<u64>,
    ) -> Result<MemDesk, AllocError>
        requires { IsTrue (all_differ (keys_of files.items)) }
        ensures files { IfOk result (λ desk. HoldsFiles files.items (files_of desk)) }
        ensures outputs { IfOk result (λ desk. (name : List ℕ) → outputs_of desk name ≡ []) }
        ensures said { IfOk result (λ desk. said_to desk ≡ []) }
        ensures faults { IfOk result (λ desk. faults_of desk ≡ 0) }
        ensures calls { IfOk result (λ desk. calls_of desk ≡ 0) }
        ensures failing { IfOk result (λ desk. failing_of desk ≡ failing.items) }
        ensures most { IfOk result (λ desk. most_of desk ≡ 2 ^ 64 - 1) }
    {
        MemDesk::short(alloc, files, failing, u64::MAX)
    }

    /// The same desk, of which one call reads at most `most` bytes, so that a file comes in many
    /// short pieces.
    pub fn short(
        alloc: Global,
        files: Vec<(Name, Vec<u8>)>,
        failing: Vec<u64>,
        most: u64,
    ) -> Result<MemDesk, AllocError>
        requires differ { IsTrue (all_differ (keys_of files.items)) }
        requires some { 1 ≤ most }
        ensures files { IfOk result (λ desk. HoldsFiles files.items (files_of desk)) }
        ensures outputs { IfOk result (λ desk. (name : List ℕ) → outputs_of desk name ≡ []) }
        ensures said { IfOk result (λ desk. said_to desk ≡ []) }
        ensures faults { IfOk result (λ desk. faults_of desk ≡ 0) }
        ensures calls { IfOk result (λ desk. calls_of desk ≡ 0) }
        ensures failing { IfOk result (λ desk. failing_of desk ≡ failing.items) }
        ensures most { IfOk result (λ desk. most_of desk ≡ most) }
    {
        Ok(MemDesk {
            files: store(alloc, files)?,
            said: Vec::new(alloc),
            calls: Calls::new(failing),
            limit: PieceLimit { most },
        })
    }

    /// What was said so far.
    pub fn printed(&self) -> &[u8]
        ensures { result.now ≡ said_to self.now }
    {
        self.said.as_slice()
    }

    /// How many calls were made so far, failed ones included.
    pub fn calls(&self) -> u64
        ensures { result ≡ calls_of self.now }
    {
        self.calls.made()
    }

    /// What the file with this name holds, if there is one.
    pub fn file(&self, name: &Name) -> Option<&[u8]>
        ensures { option_copied result ≡ files_of self.now name.now }
    {
        let file = self.files.get(name)?;
        Some(file.bytes())
    }
}

/// The files by their names, which differ.
fn store(alloc: Global, files: Vec<(Name, Vec<u8>)>) -> Result<BTreeMap<Name, MemFile>, AllocError>
    requires { IsTrue (all_differ (keys_of files.items)) }
    ensures { IfOk result (λ made. (name : List ℕ)
        → stored made name ≡ lookup (is_at (slice_cmp nat_cmp name)) (given_files files.items)) }
{
    let mut made = BTreeMap::new(alloc);
    for (name, bytes) in files {
        made.insert(name, MemFile::given(bytes))?;
    }
    Ok(made)
}

/// Appends a name once more.
fn push_name(alloc: Global, names: &mut Vec<Name>, name: &Name) -> Result<(), AllocError>
    ensures { OnOk result (names.new.items ≡ names.old.items ++ name.now ∷ []) }
{
    Ok(names.push(Name::from_text(alloc, name.as_str())?)?)
}

/// The names of the files.
fn listed(alloc: Global, files: &BTreeMap<Name, MemFile>) -> Result<Vec<Name>, AllocError>
    ensures { IfOk result (λ names. ListsNames (Some (files_in files.now)) names.items) }
{
    let mut names = Vec::new(alloc);
    for name in files.keys() {
        push_name(alloc, &mut names, name)?;
    }
    Ok(names)
}

/// Appends a piece to a file, which is made where it isn't there.
fn add(
    alloc: Global,
    files: &mut BTreeMap<Name, MemFile>,
    name: &Name,
    piece: &[u8],
) -> Result<(), AllocError>
    ensures ok { OnOk result (stored files.new name.now
        ≡ Some (with_piece (stored files.old name.now) piece.now)) }
    ensures err { OnErr result (stored files.new name.now ≡ stored files.old name.now) }
    ensures others { (other : List ℕ) → other ≢ name.now
        → stored files.new other ≡ stored files.old other }
{
    match files.get_mut(name) {
        Some(file) => file.append(piece)?,
        None => {
            let name = Name::from_text(alloc, name.as_str())?;
            files.insert(name, MemFile::appended(alloc, piece)?)?;
        }
    }
    Ok(())
}

impl Desk for MemDesk {
    ghost use Rattle.std.specs.Prelude.{Err};
    ghost use Rattle.gl_desk.specs.MemDesk.{files_of, most_of, outputs_of, said_to, told_by, CountsCall, FailsWhenDue, AppendsUnder, IsSameUnder};

    ghost told = { told_by };

    fn names(&mut self, alloc: Global) -> Result<Vec<Name>, DeskError>
        ensures listed { IfOk result (λ names. ListsNames (Some (files_of self.old)) names.items) }
        ensures due { FailsWhenDue result self.old self.new }
        ensures counted { CountsCall self.old self.new }
        ensures same_files { files_of self.new ≡ files_of self.old }
        ensures same_said { said_to self.new ≡ said_to self.old }
        ensures same_outputs { outputs_of self.new ≡ outputs_of self.old }
    {
        if self.calls.count_call() {
            return Err(self.calls.fail());
        }
        Ok(listed(alloc, &self.files)?)
    }

    fn read_at(
        &mut self,
        _alloc: Global,
        name: &Name,
        at: u64,
        into: &mut [u8],
    ) -> Result<usize, DeskError>
        requires { IsSome (files_of self.old name.now) }
        ensures within { IfOk result (λ n. n ≤ length into.new) }
        ensures bytes { IfOk result (λ n.
            IfSome (files_of self.old name.now) (λ file. ReadsFrom file at into.new n)) }
        ensures full { IfOk result (λ n. IfSome (files_of self.old name.now)
            (λ file. n ≡ min (min (length file - at) (length into.new)) (most_of self.old))) }
        ensures due { FailsWhenDue result self.old self.new }
        ensures counted { CountsCall self.old self.new }
        ensures same_files { files_of self.new ≡ files_of self.old }
        ensures same_said { said_to self.new ≡ said_to self.old }
        ensures same_outputs { outputs_of self.new ≡ outputs_of self.old }
    {
        if self.calls.count_call() {
            return Err(self.calls.fail());
        }
        let file = self.files.get(name).unwrap();
        Ok(copy_from(file.bytes(), at, self.limit, into))
    }

    fn append(&mut self, alloc: Global, name: &Name, piece: &[u8]) -> Result<(), DeskError>
        ensures appended { OnOk result (AppendsUnder self.old self.new name.now piece.now) }
        ensures half { result ≡ Err DeskError.Failed
            → AppendsUnder self.old self.new name.now (take (length piece.now / 2) piece.now) }
        ensures nothing { result ≡ Err DeskError.Memory → IsSameUnder self.old self.new name.now }
        ensures others { (other : List ℕ) → other ≢ name.now → IsSameUnder self.old self.new other }
        ensures due { FailsWhenDue result self.old self.new }
        ensures counted { CountsCall self.old self.new }
        ensures same_said { said_to self.new ≡ said_to self.old }
    {
        if self.calls.count_call() {
            add(alloc, &mut self.files, name, &piece[..piece.len() / 2])?;
            return Err(self.calls.fail());
        }
        Ok(add(alloc, &mut self.files, name, piece)?)
    }

    fn say(&mut self, _alloc: Global, piece: &[u8]) -> Result<(), DeskError>
        ensures said { OnOk result (said_to self.new ≡ said_to self.old ++ piece.now) }
        ensures half { result ≡ Err DeskError.Failed
            → said_to self.new ≡ said_to self.old ++ take (length piece.now / 2) piece.now }
        ensures nothing { result ≡ Err DeskError.Memory → said_to self.new ≡ said_to self.old }
        ensures due { FailsWhenDue result self.old self.new }
        ensures counted { CountsCall self.old self.new }
        ensures same_files { files_of self.new ≡ files_of self.old }
        ensures same_outputs { outputs_of self.new ≡ outputs_of self.old }
    {
        if self.calls.count_call() {
            self.said.extend_from_slice(&piece[..piece.len() / 2])?;
            return Err(self.calls.fail());
        }
        Ok(self.said.extend_from_slice(piece)?)
    }
}
