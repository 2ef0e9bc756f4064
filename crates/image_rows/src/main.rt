//! Does what the rows of standard input say with files of images, one row a line, and writes each row with what
//! came out. What is expected in `stdout` is by hand from docs/IMAGE.md.
//!
//! Words, bytes and addresses are hexadecimal; places in a file and sizes are decimal.
#![tactic(auto)]

mod files;
mod images;
mod words;

use files::FileRows;
use images::ImageRows;
use row_words::word_at;
use std::alloc::Global;
use tl_base::NoMemory;

fn main(rt: HostRuntime) -> anyhow::Result<()> {
    let alloc = rt.alloc();
    let mut files = FileRows::new(alloc);
    let mut images = ImageRows::new(alloc);
    for line in rt.lines(alloc) {
        let line = line?;
        let row = line.as_str();
        if row.is_empty() || row.starts_with("--") {
            continue;
        }
        let words: Vec<&str> = row.split_whitespace().collect(alloc)?;
        let answer = answer(alloc, &mut files, &mut images, &words)?;
        println!(rt; "{row} = {answer}")?;
    }
    Ok(())
}

/// What comes of a row, all of whose state is in the file and the image that stand.
fn answer(
    alloc: Global,
    files: &mut FileRows,
    images: &mut ImageRows,
    words: &[&str],
) -> Result<String, NoMemory> {
    match word_at(words, 0) {
        "file" => files.begin(words),
        "more" => files.more(words),
        "set" => files.set(words),
        "insert" => files.insert(words),
        "read" => files.read(),
        "each" => files.each(words),
        "fronts" => files.fronts(words),
        "image" => images.begin(words),
        "entry" => images.entry(words),
        "export" => images.export(words),
        "lawful" => images.lawful(),
        "write" => write(alloc, files, images),
        _ => Ok(String::from_str(alloc, "no such row")?),
    }
}

/// `write`: the size of the image's file, and whether it is the one that stood; it now stands.
fn write(alloc: Global, files: &mut FileRows, images: &ImageRows) -> Result<String, NoMemory> {
    match images.file()? {
        Some(bytes) => files.replace(bytes),
        None => Ok(String::from_str(alloc, "no lawful image")?),
    }
}
