//! The image of a case: a raw file or LiME ranges, zero but for what is put into it.
use crate::escapes::bytes_of;
use crate::numbers::{first_word, number_of, size_of};
use anyhow::{Context, Result, ensure};
use std::alloc::Global;

/// The most bytes that a file may come to.
const MOST: usize = 1 << 28;

/// A LiME range: where the bytes of its first address stand in the file, and how many the file has of it.
#[derive(Clone, Copy)]
struct Range {
    first: u64,
    last: u64,
    place: usize,
    kept: usize,
}

/// The image of a case: the bytes of its file, and where its ranges stand in them.
#[derive(Clone, Drop)]
pub(crate) struct Image {
    file: Vec<u8>,
    ranges: Vec<Range>,
}

impl Image {
    pub(crate) fn new(alloc: Global) -> Image {
        Image {
            file: Vec::new(alloc),
            ranges: Vec::new(alloc),
        }
    }

    /// The image of a whole file, with its bytes by their places in it.
    pub(crate) fn of_file(alloc: Global, bytes: &[u8]) -> Result<Image> {
        Ok(Image {
            file: bytes.to_vec(alloc)?,
            ranges: Vec::new(alloc),
        })
    }

    pub(crate) fn file(&self) -> &[u8] {
        &self.file
    }

    /// Does what a line of a case says of the image. It answers whether the word is one of an image.
    pub(crate) fn apply(&mut self, alloc: Global, word: &str, rest: &str) -> Result<bool> {
        match word {
            "raw" => self.grow(size_of(rest)?)?,
            "range" => self.add_words(rest)?,
            "ranges" => self.add_many(rest)?,
            "u64" => {
                let (at, number) = first_word(rest);
                self.put(number_of(at)?, &number_of(number)?.to_le_bytes())?;
            }
            "u32" => {
                let (at, number) = first_word(rest);
                let number = u32::try_from(number_of(number)?).ok().context("no u32")?;
                self.put(number_of(at)?, &number.to_le_bytes())?;
            }
            "text" => {
                let (at, text) = first_word(rest);
                self.put(number_of(at)?, &bytes_of(alloc, text)?)?;
            }
            "patch" => {
                let (place, text) = first_word(rest);
                self.patch(size_of(place)?, &bytes_of(alloc, text)?)?;
            }
            "keep" => {
                let kept = size_of(rest)?;
                ensure!(kept <= self.file.len(), "the file has fewer bytes");
                self.file.truncate(kept);
            }
            _ => return Ok(false),
        }
        Ok(true)
    }

    // Adds zeros at the end of the file.
    fn grow(&mut self, zeros: usize) -> Result<()> {
        let length = self.file.len().saturating_add(zeros);
        ensure!(length <= MOST, "too large a file");
        self.file.resize(length, 0)?;
        Ok(())
    }

    fn add_words(&mut self, rest: &str) -> Result<()> {
        let (first, behind) = first_word(rest);
        let (last, kept) = first_word(behind);
        let (first, last) = (number_of(first)?, number_of(last)?);
        let kept = match kept {
            "" => last.saturating_sub(first).saturating_add(1) as usize,
            kept => size_of(kept)?,
        };
        self.add(first, last, kept)
    }

    // Adds a header of LiME, version 1, and so many zeros behind it.
    fn add(&mut self, first: u64, last: u64, kept: usize) -> Result<()> {
        self.file
            .extend_from_slice(&[0x45, 0x4d, 0x69, 0x4c, 1, 0, 0, 0])?;
        self.file.extend_from_slice(&first.to_le_bytes())?;
        self.file.extend_from_slice(&last.to_le_bytes())?;
        self.file.extend_from_slice(&[0; 8])?;
        self.ranges.push(Range {
            first,
            last,
            place: self.file.len(),
            kept,
        })?;
        self.grow(kept)
    }

    fn add_many(&mut self, rest: &str) -> Result<()> {
        let (count, behind) = first_word(rest);
        let (first, step) = first_word(behind);
        let (first, step) = (number_of(first)?, number_of(step)?);
        for number in 0..number_of(count)? {
            let at = first.saturating_add(number.saturating_mul(step));
            self.add(at, at, 1)?;
        }
        Ok(())
    }

    // The place of the file at which a physical address stands: that of the first range that has it.
    fn place_of(&self, at: u64) -> Option<usize> {
        if self.ranges.is_empty() {
            return Some(at as usize);
        }
        let has = |range: &&Range| range.first <= at && at <= range.last;
        let range = self.ranges.iter().find(has)?;
        let place = at.saturating_sub(range.first) as usize;
        if place < range.kept {
            Some(range.place.saturating_add(place))
        } else {
            None
        }
    }

    fn put(&mut self, at: u64, bytes: &[u8]) -> Result<()> {
        for (n, byte) in bytes.iter().enumerate() {
            let place = self.place_of(at.saturating_add(n as u64));
            self.patch(place.context("no such address")?, &[*byte])?;
        }
        Ok(())
    }

    fn patch(&mut self, place: usize, bytes: &[u8]) -> Result<()> {
        for (n, byte) in bytes.iter().enumerate() {
            let byte_there = self.file.get_mut(place.saturating_add(n));
            *byte_there.context("no such place in the file")? = *byte;
        }
        Ok(())
    }
}
