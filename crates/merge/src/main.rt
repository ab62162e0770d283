//! The program `merge`: logs from standard input, and the merged table, or one line of fault, to standard output.
#![tactic(auto)]

use merger::{LONGEST_INPUT, merged};
use std::io::{Read, Write};
use std::process::ExitCode;

fn main(rt: HostRuntime) -> anyhow::Result<ExitCode> {
    let heap = rt.alloc();
    let mut input = Vec::new(heap);
    // One byte more than is allowed shows that the input is too long.
    rt.stdin()
        .take(LONGEST_INPUT as u64 + 1)
        .read_to_end(&mut input)?;
    match merged(heap, &input) {
        Ok(table) => {
            // In one write: `print` hands a text over in pieces, between which a reader may end or another writer come.
            rt.stdout().write_all(table.as_bytes())?;
            Ok(ExitCode::SUCCESS)
        }
        Err(fault) => {
            rt.print(fault.line(heap)?)?;
            Ok(ExitCode::FAILURE)
        }
    }
}
