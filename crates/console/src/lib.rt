// What the programs share: their arguments, their input, and a file that they write.
#![tactic(auto)]

mod request;
mod told;

use anyhow::anyhow;
pub use request::{Request, read_request, read_writing_request};
use std::fs::File;
use std::io::Read;
use std::{fs, io};
pub use told::tell;

// Room for most inputs, so that they aren't moved as they grow. Memory that isn't written to costs nothing.
const ROOM: usize = 8 << 20;

// The files one after the other, or standard input where there is none.
pub fn read_input(rt: &HostRuntime, files: &[String]) -> anyhow::Result<Vec<u8>> {
    let mut input = Vec::with_capacity(rt.alloc(), ROOM)?;
    if files.is_empty() {
        rt.stdin().read_to_end(&mut input)?;
    }
    for file in files {
        read_file(rt, file, &mut input).map_err(|e| anyhow!("{file} can't be read: {e}"))?;
    }
    Ok(input)
}

fn read_file(rt: &HostRuntime, file: &str, input: &mut Vec<u8>) -> io::Result<()> {
    let mut opened = File::open(rt, file)?;
    opened.read_to_end(input)?;
    Ok(())
}

// Writes a file that the command line names.
pub fn write_output(rt: &HostRuntime, file: &str, bytes: &[u8]) -> anyhow::Result<()> {
    fs::write(rt, file, bytes).map_err(|e| anyhow!("{file} can't be written: {e}"))
}
