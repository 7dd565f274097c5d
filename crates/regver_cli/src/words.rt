// The words that the program was called with.
use std::rt::Env;
use std::{env, io};

/// The words of the command line, the program's own name first. One that is not UTF-8 is an error of the
/// kind `InvalidData`; any other error is want of memory.
pub fn words_of(rt: &(impl Env + AllocGlobal)) -> io::Result<Vec<String>> {
    let mut words = Vec::new(rt.alloc());
    for word in env::args(rt)? {
        words.push(word)?;
    }
    Ok(words)
}
