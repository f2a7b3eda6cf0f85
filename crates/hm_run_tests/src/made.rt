//! What several of the tests make or compare: arguments of a call, paths, files of a store.
use hm_base::OwnedText;
use hm_store::MemStore;
use std::alloc::{AllocError, Global};

/// The words of a text, which are separated by single spaces.
pub(crate) fn worded(alloc: Global, text: &str) -> Result<Vec<OwnedText>, AllocError> {
    let mut words = Vec::new(alloc);
    for word in text.split(' ') {
        words.push(OwnedText {
            text: String::from_str(alloc, word)?,
        })?;
    }
    Ok(words)
}

/// The path of a file of this process in a folder.
pub(crate) fn path_of(
    alloc: Global,
    folder: &str,
    number: u32,
    ending: &str,
) -> Result<String, AllocError> {
    format!(in alloc; "{folder}/hm_run_tests_{number}.{ending}")
}

/// Whether a file holds this text, or isn't there.
pub(crate) fn holds(store: &MemStore, name: &str, text: Option<&str>) -> bool {
    match (store.file(name), text) {
        (Some(bytes), Some(text)) => bytes == text.as_bytes(),
        (None, None) => true,
        _ => false,
    }
}
