//! Command lines, and the settings that they ask for.
use anyhow::{Result, bail};
use program_words::{Settings, WordsFault, made_words, settings_of};
use std::alloc::{AllocError, Global};

/// The words behind the program's name.
const LINES: [&str; 12] = [
    "i s --cache=0",
    "--chunk 4096 i s d",
    "i s --cache 0004",
    "-- -i s",
    "i s -",
    "i s --cache x",
    "i s --cache 1 --cache 1",
    "i s --cache 1048577",
    "i s --chunk 4095",
    "i s d e",
    "i s --help",
    "i",
];

const MADE: [&str; 7] = [
    "--make 1",
    "--make 064",
    "--make 0",
    "--make 65",
    "--make +1",
    "--make",
    "--make 1 2",
];

fn words(alloc: Global, line: &str) -> Result<Vec<String>, AllocError> {
    let mut words = Vec::new(alloc);
    for word in line.split(' ') {
        words.push(String::from_str(alloc, word)?)?;
    }
    Ok(words)
}

fn print_settings<R: Print>(rt: &R, line: &str, settings: &Settings) -> Result<()> {
    let (image, symbols) = (settings.image.text(), settings.symbols.text());
    let (cache, chunk) = (settings.cache, settings.chunk);
    match &settings.dump {
        Some(path) => {
            let dump = path.text();
            println!(rt;
                "settings_of {line}: {image} {symbols} {dump}, cache {cache}, chunk {chunk}"
            )?;
        }
        None => println!(rt;
            "settings_of {line}: {image} {symbols}, cache {cache}, chunk {chunk}"
        )?,
    }
    Ok(())
}

/// Prints what each command line asks for.
pub(crate) fn print_command_lines<R: Print + Alloc<A = Global>>(rt: &R) -> Result<()> {
    for line in LINES {
        match settings_of(rt.alloc(), &words(rt.alloc(), line)?) {
            Ok(settings) => print_settings(rt, line, &settings)?,
            Err(WordsFault::Usage) => println!(rt; "settings_of {line}: usage")?,
            Err(WordsFault::Memory) => bail!("out of memory"),
        }
    }
    for line in MADE {
        match made_words(&words(rt.alloc(), line)?) {
            Some(number) => println!(rt; "made_words {line}: {number}")?,
            None => println!(rt; "made_words {line}: none")?,
        }
    }
    Ok(())
}
