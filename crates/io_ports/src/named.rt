// Several files in memory, by their names.
ghost use Rattle.std.specs.Prelude.{◌≡◌, ◌≤◌, ◌<◌, ◌+◌, ◌↔◌, ◌⊎◌, List, ℕ, Option, Some, [], length, min, drop, IfOk, IsErr, IsNone, MatchResult, Contains, replicate, string_bytes, unwrap_or, position, nat_eq, slice_index};
ghost use Rattle.std.specs.Option.{option_copied};
ghost use Rattle.std.specs.Cmp.Lexicographic.{pointwise};
ghost use Rattle.std.specs.Io.{ReadsAtMost};
ghost use Rattle.io_ports.specs.Causes.{HasCause, next_count};
ghost use Rattle.io_ports.specs.Named.{ReadsAt, place_named, bytes_named, count_named, raised_at};
ghost use Rattle.io_ports.specs.Devices.{FilesState};

use crate::copying::copy_from;
use crate::{Failed, Files};
use std::alloc::{AllocError, Global};
use std::marker::Model;

/// A name, and the bytes under it.
#[derive(Drop)]
pub struct NamedFile {
    name: String,
    bytes: Vec<u8>,
}

impl Model for NamedFile {
    ghost use Rattle.std.specs.Prelude.{List, ℕ, string_bytes};

    ghost Value = { List ℕ × List ℕ };

    ghost view = { λ f. (string_bytes f.name, f.bytes.items) };
}

impl NamedFile {
    pub fn new(name: String, bytes: Vec<u8>) -> Self
        ensures { result ≡ (string_bytes name, bytes.items) }
    {
        NamedFile { name, bytes }
    }

    pub fn name(&self) -> &str
        ensures { result.now ≡ self.now.0 }
    {
        self.name.as_str()
    }

    pub fn bytes(&self) -> &[u8]
        ensures { result.now ≡ self.now.1 }
    {
        &self.bytes
    }
}

// The place of the first file of this name.
fn position_of(files: &[NamedFile], name: &str) -> Option<usize>
    ensures { result ≡ position (λ file. pointwise nat_eq file.0 name.now) files.now }
{
    files.iter().position(|file| file.name() == name)
}

// The same, or the number of files where there is none.
fn place_of(files: &[NamedFile], name: &str) -> usize
    ensures place { result ≡ place_named files.now name.now }
    ensures within { result ≤ length files.now }
{
    match position_of(files, name) {
        Some(place) => place,
        None => files.len(),
    }
}

// The bytes of the first file of this name.
fn bytes_of<'a>(files: &'a [NamedFile], name: &str) -> Option<&'a [u8]>
    ensures { option_copied result ≡ bytes_named files.now name.now }
{
    let file = files.get(position_of(files, name)?)?;
    Some(file.bytes())
}

// Raises the count at a place.
fn raise(counts: &mut [u64], place: usize)
    requires { place < length counts.old }
    ensures counts { counts.new ≡ raised_at counts.old place }
    ensures raised { slice_index counts.new place ≡ next_count (slice_index counts.old place) }
    ensures later { (k : ℕ) → slice_index counts.old k ≤ slice_index counts.new k }
{
    counts[place] = counts[place].saturating_add(1);
}

/// Files of which the first of a name counts. The calls whose numbers are listed fail, counted over all names, and so
/// does one for a name that isn't there.
#[derive(Drop)]
pub struct MemFiles {
    files: Vec<NamedFile>,
    // One for each file, and a last one for all names that aren't there.
    faults: Vec<u64>,
    fails: Vec<u64>,
    calls: u64,
}

impl Model for MemFiles {
    ghost use Rattle.std.specs.Prelude.{◌≡◌, ◌+◌, length};
    ghost use Rattle.io_ports.specs.Devices.{FilesState};

    ghost Value = { FilesState };

    ghost view = { λ s. record { files = s.files.items; faults = s.faults.items; fails = s.fails.items; calls = s.calls } };

    ghost invariant = { λ s. length s.faults.items ≡ length s.files.items + 1 };
}

impl MemFiles {
    /// Files that fail at the calls with these numbers, counted from 1.
    pub fn new(alloc: Global, files: Vec<NamedFile>, fails: Vec<u64>) -> Result<Self, AllocError>
        ensures { IfOk result (λ s. s ≡ record { files = files.items; faults = replicate (length files.items + 1) 0; fails = fails.items; calls = 0 }) }
    {
        let faults = vec![in alloc; 0u64; files.len() + 1]?;
        Ok(MemFiles {
            files,
            faults,
            fails,
            calls: 0,
        })
    }

    /// How many calls were made.
    pub fn calls(&self) -> u64
        ensures { result ≡ self.now.calls }
    {
        self.calls
    }

    /// How many calls for this name failed; all names that aren't there share a count.
    pub fn faults_of(&self, name: &str) -> u64
        ensures { result ≡ count_named self.now.files self.now.faults name.now }
    {
        self.faults[place_of(&self.files, name)]
    }
}

impl Files for MemFiles {
    ghost bytes_of = { λ s name. bytes_named s.files name };

    ghost faults_of = { λ s name. count_named s.files s.faults name };

    fn read_at(&mut self, name: &str, at: u64, into: &mut [u8]) -> Result<usize, Failed>
        requires { at ≤ 1048576 }
        ensures bound { ReadsAtMost result into.new }
        ensures bytes { ReadsAt (bytes_named self.old.files name.now) at result into.new }
        ensures cause { HasCause (count_named self.old.files self.old.faults name.now) (count_named self.new.files self.new.faults name.now) result }
        ensures later { (n : List ℕ) → count_named self.old.files self.old.faults n ≤ count_named self.new.files self.new.faults n }

        // It fails exactly at the listed calls and for a name that isn't there.
        ensures refused { IsErr result ↔ (Contains self.old.fails (next_count self.old.calls) ⊎ IsNone (bytes_named self.old.files name.now)) }
        ensures counts { MatchResult result (λ _. self.new.faults ≡ self.old.faults) (λ _. self.new.faults ≡ raised_at self.old.faults (place_named self.old.files name.now)) }
        ensures calls { self.new.calls ≡ next_count self.old.calls }
        ensures fails { self.new.fails ≡ self.old.fails }
        ensures files { self.new.files ≡ self.old.files }
    {
        self.calls = self.calls.saturating_add(1);
        if self.fails.contains(&self.calls) {
            raise(&mut self.faults, place_of(&self.files, name));
            return Err(Failed);
        }
        let Some(bytes) = bytes_of(&self.files, name) else {
            raise(&mut self.faults, place_of(&self.files, name));
            return Err(Failed);
        };
        Ok(copy_from(bytes, at as usize, into))
    }
}

/// Files of which the first of a name counts, and which never fail: a name that isn't there is an empty file.
#[derive(Drop)]
pub struct SureFiles {
    files: Vec<NamedFile>,
}

impl Model for SureFiles {
    ghost use Rattle.std.specs.Prelude.{List, ℕ};

    ghost Value = { List (List ℕ × List ℕ) };

    ghost view = { λ s. s.files.items };
}

impl SureFiles {
    pub fn new(files: Vec<NamedFile>) -> Self
        ensures { result ≡ files.items }
    {
        SureFiles { files }
    }
}

impl Files for SureFiles {
    ghost bytes_of = { λ s name. Some (unwrap_or (bytes_named s name) []) };

    ghost faults_of = { λ _ _. 0 };

    fn read_at(&mut self, name: &str, at: u64, into: &mut [u8]) -> Result<usize, Failed>
        requires { at ≤ 1048576 }
        ensures bound { ReadsAtMost result into.new }
        ensures bytes { ReadsAt (Some (unwrap_or (bytes_named self.old name.now) [])) at result into.new }

        // It gives all that fits.
        ensures whole { result ≡ Ok (min (length into.new) (length (drop at (unwrap_or (bytes_named self.old name.now) [])))) }
        ensures files { self.new ≡ self.old }
    {
        let Some(bytes) = bytes_of(&self.files, name) else {
            return Ok(0);
        };
        Ok(copy_from(bytes, at as usize, into))
    }
}
