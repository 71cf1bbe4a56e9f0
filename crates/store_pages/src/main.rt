// Reads a list of pages from standard input, a line `page,frame,rights` each, and prints the account of its lines in two stores.
#![tactic(auto)]

use std::io::Read;

// `lay_pages` does the same with another account. Three lines that read and print, of which no contract can say anything, are no plainer in a crate of their own.
fn main(rt: HostRuntime) -> anyhow::Result<()> {
    let heap = rt.alloc();
    let mut list = Vec::new(heap);
    rt.stdin().read_to_end(&mut list)?;
    let text = store_account::store_account(heap, list.as_slice())?;
    rt.print(text)?;
    Ok(())
}
