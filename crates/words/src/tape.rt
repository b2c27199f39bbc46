// A tape: words that the caller gives, read once from their start.
ghost use Rattle.std.specs.Prelude.{◌≡◌, ◌≤◌, length, OnErr};
ghost use Rattle.terms.specs.Faults.{OutOfMemoryOnlyIf};
ghost use Rattle.words.specs.Listed.{InSpan};

use crate::source::WordSource;
use std::alloc::Global;
use terms::Fault;

// The greatest span: as many words as 32 bits can tell apart.
const MAX_SPAN: u64 = 4_294_967_296;

#[derive(Drop)]
pub struct Tape {
    // Where the words of the next filling are kept.
    heap: Global,
    span: u64,
    // With a position: the library's owning iterator does not promise to stay as it is at its end, so
    // that each reading would have to ask it first whether it is there.
    words: Vec<u32>,
    // The first word not yet taken.
    position: usize,
    ghost ok: { InSpan span words.items },
}

impl Tape {
    ghost use Rattle.words.specs.Tape.{Blank, Filled, tape_source};

    // A tape with no words.
    pub fn new(heap: Global) -> Tape
        ensures { Blank (tape_source result) }
    {
        Tape {
            heap,
            span: 1,
            words: Vec::new(heap),
            position: 0,
        }
    }

    // Puts these words in the place of what was still to come. A refusal changes nothing. Want of memory
    // is told only where there are words to copy.
    pub fn fill(&mut self, span: u64, words: &[u32]) -> Result<(), Fault>
        ensures filled { Filled (tape_source self.old) span words.now (tape_source self.new) result }
        ensures memory { OutOfMemoryOnlyIf result (1 ≤ length words.now) }
        ensures kept { OnErr result (self.new ≡ self.old) }
    {
        if span == 0 || span > MAX_SPAN {
            return Err(Fault::SpanOutOfRange);
        }
        if let Some(position) = words.iter().position(|word| *word as u64 >= span) {
            return Err(Fault::WordOutOfRange(position));
        }
        // The only step that can fail comes before any change.
        // `Vec::from_slice` does not promise that it asks for no memory where there is nothing to copy.
        let mut copied = Vec::new(self.heap);
        copied.extend_from_slice(words)?;
        self.words = copied;
        self.span = span;
        self.position = 0;
        Ok(())
    }
}

impl WordSource for Tape {
    ghost use Rattle.words.specs.Tape.{tape_source};

    ghost source = { tape_source };

    fn span(&self) -> u64 {
        self.span
    }

    fn next_word(&mut self) -> Option<u32> {
        let word = *self.words.get(self.position)?;
        self.position += 1;
        Some(word)
    }
}
