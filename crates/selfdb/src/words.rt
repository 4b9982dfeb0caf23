// The words after the program's name.

use std::alloc::{AllocError, Global};
use std::env::{Env, FillError};

// A word has fewer than 2 to this power of bytes.
const MOST: u32 = 24;

/// All words after the program's name, in order; one that isn't UTF-8 is the empty text.
pub fn words<R: Env>(env: &R, alloc: Global) -> Result<Vec<String>, AllocError> {
    let mut words = Vec::new(alloc);
    for number in 1..usize::MAX {
        let Some(word) = word(env, alloc, number)? else {
            return Ok(words);
        };
        words.push(word)?;
    }
    Ok(words)
}

// The word of this number, where there is one.
fn word<R: Env>(env: &R, alloc: Global, number: usize) -> Result<Option<String>, AllocError> {
    for power in 10..MOST {
        let mut bytes = vec![in alloc; 0u8; 1usize << power]?;
        match env.arg(number, &mut bytes) {
            Ok(count) => {
                bytes.truncate(count);
                return Ok(Some(String::from_utf8(bytes).unwrap_or(String::new(alloc))));
            }
            Err(FillError::NotPresent) => return Ok(None),
            Err(FillError::TooLong) => {}
        }
    }
    Err(AllocError)
}
