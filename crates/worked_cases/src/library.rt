//! What cases take from beside them: images of earlier blocks, and files of their folder.
use crate::blocks::Line;
use crate::image::Image;
use crate::numbers::first_word;
use anyhow::{Context, Result, bail};
use std::alloc::Global;
use std::fs;
use std::rt::Files;

/// Images by their names, and the folder of the case file, with its last slash.
#[derive(Drop)]
pub(crate) struct Library {
    folder: String,
    images: Vec<(String, Image)>,
}

impl Library {
    pub(crate) fn new(alloc: Global) -> Library {
        Library {
            folder: String::new(alloc),
            images: Vec::new(alloc),
        }
    }

    /// Takes files from beside a case file from now on.
    pub(crate) fn enter(&mut self, alloc: Global, path: &str) -> Result<()> {
        let mut folder = String::new(alloc);
        if let Some((before, _)) = path.rsplit_once('/') {
            folder.push_str(before)?;
            folder.push('/')?;
        }
        self.folder = folder;
        Ok(())
    }

    /// The bytes of a file beside the case file.
    pub(crate) fn file<R: Files + Alloc<A = Global>>(&self, rt: &R, name: &str) -> Result<Vec<u8>> {
        let folder = self.folder.as_str();
        let path = format!(in rt.alloc(); "{folder}{name}")?;
        fs::read(rt, path.as_str()).context(format_args!("{name}"))
    }

    /// A copy of the image of a name.
    pub(crate) fn image(&self, name: &str) -> Result<Image> {
        for (other, image) in &self.images {
            if other.as_str() == name {
                return Ok(image.clone()?);
            }
        }
        bail!("no image {name}");
    }

    /// Adds the image of a block.
    pub(crate) fn add(&mut self, alloc: Global, name: &str, lines: &[Line<'_>]) -> Result<()> {
        let mut image = Image::new(alloc);
        for line in lines {
            let (word, rest) = first_word(line.text);
            let number = line.number;
            if word == "image" {
                image = self.image(rest).context(format_args!("line {number}"))?;
            } else if !image
                .apply(alloc, word, rest)
                .context(format_args!("line {number}"))?
            {
                bail!("line {number}: no word of an image: {word}");
            }
        }
        self.images.push((String::from_str(alloc, name)?, image))?;
        Ok(())
    }
}
