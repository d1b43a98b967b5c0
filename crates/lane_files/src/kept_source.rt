use crate::newest_lines::NewestLines;
use disk_core::{Failed, Source};
use std::marker::Model;

// No bytes.
const NOTHING: &[u8] = &[];

/// A source that keeps the bytes that were read last. It gives what the source gives.
#[derive(Drop)]
pub struct KeptSource<S: Source> {
    source: S,
    newest: NewestLines,
}

impl<S: Source> Model for KeptSource<S> {
    ghost Value = { S };

    ghost view = { λ kept. kept.source };
}

impl<S: Source> KeptSource<S> {
    ghost use Rattle.std.specs.Prelude.{◌≡◌};

    /// Nothing of it was read yet.
    pub fn new(source: S) -> Self
        ensures { result ≡ source }
    {
        KeptSource {
            source,
            newest: NewestLines::new(),
        }
    }

    // A line by its number from 1, without its LF: what is kept of it.
    pub(crate) fn line(&self, number: u32) -> Option<&[u8]> {
        self.newest.line(number)
    }
}

impl<S: Source> Source for KeptSource<S> {
    ghost left = { S.left };

    ghost ended = { S.ended };

    ghost faults = { S.faults };

    ghost keeps_rest = { S.keeps_rest };

    ghost frame = { S.frame };

    fn read(&mut self, into: &mut [u8]) -> Result<usize, Failed> {
        let count = self.source.read(into)?;
        self.newest.keep(into.get(..count).unwrap_or(NOTHING));
        Ok(count)
    }
}
