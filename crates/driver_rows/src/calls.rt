//! Files in memory for a call, and texts of any length.

use qz_io::MemFiles;
use std::alloc::{AllocError, Global};

/// The words of a call.
pub fn texts(alloc: Global, words: &[&str]) -> Result<Vec<String>, AllocError> {
    let mut texts = Vec::new(alloc);
    for word in words {
        texts.push(String::from_str(alloc, word)?)?;
    }
    Ok(texts)
}

/// The bytes that are held under a name.
pub fn held<'f>(files: &'f MemFiles, name: &str) -> Option<&'f [u8]> {
    for (other, bytes) in files.held.as_slice() {
        if other.as_str() == name {
            return Some(bytes.as_slice());
        }
    }
    None
}

/// Holds the text under the name, if there is one.
pub fn hold(
    alloc: Global,
    files: &mut MemFiles,
    name: &str,
    text: Option<&str>,
) -> Result<(), AllocError> {
    if let Some(text) = text {
        let bytes = Vec::from_slice(alloc, text.as_bytes())?;
        files.held.push((String::from_str(alloc, name)?, bytes))?;
    }
    Ok(())
}

/// The text, and then the part so many times.
pub fn repeated(alloc: Global, text: &str, part: &str, times: u32) -> Result<String, AllocError> {
    let mut whole = String::from_str(alloc, text)?;
    for _ in 0..times {
        whole.push_str(part)?;
    }
    Ok(whole)
}
