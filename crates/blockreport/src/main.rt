// Prints the report of the block file on standard input.
#![tactic(auto)]

use report::reporting::report;
use std::io::Read;

// A block file is at most this long; what follows is not read.
const MAX_FILE: u64 = 16384;

fn main(rt: HostRuntime) -> anyhow::Result<()> {
    let mut file = Vec::new(rt.alloc());
    rt.stdin().take(MAX_FILE).read_to_end(&mut file)?;
    let text = report(rt.alloc(), &file)?;
    print!(rt; "{text}")?;
    Ok(())
}
