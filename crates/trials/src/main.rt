// Shows the texts of data/, which are document 01's examples of the show program and what it says of long texts.
#![tactic(auto)]

use display::PAGE_SIZE;
use limits::LONGEST_SHOWN_TEXT;
use std::fs::File;
use std::io;
use std::io::Read;

const TEXT_ROOM: usize = LONGEST_SHOWN_TEXT + 1;

fn show_file(rt: &HostRuntime, name: &str) -> io::Result<()> {
    println!(rt; "{name}")?;
    let file = File::open(rt, name)?;
    let mut text = [0u8; TEXT_ROOM];
    let copied = io::copy(&mut file.take(TEXT_ROOM as u64), &mut &mut text[..])?;
    let length = TEXT_ROOM.min(copied as usize);
    let mut page = [0u8; PAGE_SIZE];
    let end = display::show(&text[..length], &mut page);
    rt.write_all(&page[..end])
}

fn main(rt: HostRuntime) -> io::Result<()> {
    for name in [
        "contents_only.hex",
        "kind_127.hex",
        "accepted.hex",
        "bytes_65536.hex",
        "bytes_65537.hex",
    ] {
        show_file(&rt, name)?;
    }
    Ok(())
}
