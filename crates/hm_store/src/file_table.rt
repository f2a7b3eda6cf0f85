//! Files in memory, by name and by index.
ghost use Rattle.std.specs.Prelude.{◌≡◌, ◌<◌, ◌++◌, ℕ, List, length, is_some, IfOk, IfSome, OnOk, OnErr};
ghost use Rattle.std.specs.Option.{option_map};
ghost use Rattle.std.specs.FinMap as finmap;
ghost use Rattle.hm_store.specs.Files.{content};
ghost use Rattle.hm_store.specs.NamedFiles.{no_files, name_at, appended_at};

use hm_base::OutOfMemory;
use indexmap::IndexMap;
use std::alloc::Global;
use std::marker::Model;

/// Files in memory. Each has an index, which never changes.
#[derive(Drop)]
pub(crate) struct FileTable {
    files: IndexMap<String, Vec<u8>>,
}

impl Model for FileTable {
    ghost use Rattle.hm_store.specs.NamedFiles.{NamedFiles, named_files_code, names_of, files_of};

    ghost Value = { NamedFiles };

    ghost coded = { named_files_code };

    ghost view = { λ t. record {
      names = names_of t.files.entries;
      files = files_of t.files.entries;
    } };
}

impl FileTable {
    /// No files.
    pub(crate) fn new(alloc: Global) -> Self
        ensures { result ≡ no_files }
    {
        FileTable {
            files: IndexMap::new(alloc),
        }
    }

    /// The bytes of the file of this name.
    pub(crate) fn get(&self, name: &str) -> Option<&[u8]>
        ensures { option_map (λ bytes. bytes.now) result ≡ finmap.get self.now.files name.now }
    {
        match self.files.get(name) {
            Some(bytes) => Some(bytes.as_slice()),
            None => None,
        }
    }

    /// The index of the file of this name.
    pub(crate) fn place(&self, name: &str) -> Option<usize>
        ensures found { is_some result ≡ finmap.contains_key self.now.files name.now }
        ensures within { IfSome result (λ place. place < length self.now.names) }
        ensures named { IfSome result (λ place. name_at self.now.names place ≡ name.now) }
    {
        self.files.get_index_of(name)
    }

    /// The bytes of the file at an index.
    pub(crate) fn bytes(&self, place: usize) -> &[u8]
        requires { place < length self.now.names }
        ensures { result.now ≡ content self.now.files (name_at self.now.names place) }
    {
        match self.files.get_index(place) {
            Some((_, bytes)) => bytes.as_slice(),
            None => unreachable!(),
        }
    }

    /// Appends bytes to the file at an index.
    pub(crate) fn append(&mut self, place: usize, bytes: &[u8]) -> Result<(), OutOfMemory>
        requires { place < length self.old.names }
        ensures ok { OnOk result (self.new ≡ appended_at self.old place bytes.now) }
        ensures err { OnErr result (self.new ≡ self.old) }
    {
        match self.files.get_index_mut(place) {
            Some(file) => Ok(file.extend_from_slice(bytes)?),
            None => unreachable!(),
        }
    }

    /// Adds a file or replaces the one of that name, and returns its index.
    pub(crate) fn set(&mut self, name: &str, bytes: &[u8]) -> Result<usize, OutOfMemory>
        ensures files { OnOk result (self.new.files ≡ finmap.insert self.old.files name.now bytes.now) }
        ensures places { OnOk result
            ((more : List (List ℕ)) × (self.new.names ≡ self.old.names ++ more)) }
        ensures within { IfOk result (λ place. place < length self.new.names) }
        ensures named { IfOk result (λ place. name_at self.new.names place ≡ name.now) }
        ensures err { OnErr result (self.new ≡ self.old) }
    {
        let alloc = *self.files.allocator();
        let name = String::from_str(alloc, name)?;
        let bytes = Vec::from_slice(alloc, bytes)?;
        let (place, _) = self.files.insert_full(name, bytes)?;
        Ok(place)
    }
}
