// Reads the texts of data/, which others' tools wrote, and prints what the writer makes of each image, or the refusal.
#![tactic(auto)]

use limits::{LARGEST_IMAGE, LONGEST_SHOWN_TEXT, LONGEST_WRITTEN_TEXT};
use numbers::slices;
use refusals::Filled;
use std::fs::File;
use std::io;
use std::io::Read;

const TEXT_ROOM: usize = LONGEST_SHOWN_TEXT + 1;

// The image of a text, written as a text again.
fn rewrite(text: &[u8], written: &mut [u8]) -> Filled {
    let mut image = [0u8; LARGEST_IMAGE];
    let length = hexread::read(text, &mut image)?;
    hexwrite::write(slices::part(&image, 0, length), written)
}

fn print_file(rt: &HostRuntime, name: &str) -> io::Result<()> {
    println!(rt; "{name}")?;
    let file = File::open(rt, name)?;
    let mut text = [0u8; TEXT_ROOM];
    let copied = io::copy(&mut file.take(TEXT_ROOM as u64), &mut &mut text[..])?;
    let mut written = [0u8; LONGEST_WRITTEN_TEXT];
    match rewrite(&text[..TEXT_ROOM.min(copied as usize)], &mut written) {
        Ok(length) => rt.write_all(slices::part(&written, 0, length)),
        Err(refusal) => println!(rt; "refused {} {}", refusal.number, refusal.detail),
    }
}

fn main(rt: HostRuntime) -> io::Result<()> {
    for name in [
        "srecord_16.hex",
        "srecord_32.hex",
        "srecord_lower.hex",
        "srecord_full.hex",
        "srecord_default.hex",
        "objcopy.hex",
        "objcopy_full.hex",
        "intelhex.hex",
        "intelhex_32.hex",
        "intelhex_crlf.hex",
        "intelhex_full_255.hex",
        "intelhex_empty.hex",
    ] {
        print_file(&rt, name)?;
    }
    Ok(())
}
