// Where random words come from.
ghost use Rattle.std.specs.Prelude.{◌≡◌, None};
ghost use Rattle.words.specs.Source.{Source, Asked};

pub trait WordSource {
    // The span, and the words still to come.
    ghost source: { Self → Source };

    // Every word is below this number, which is from 1 to 4,294,967,296.
    fn span(&self) -> u64
        ensures { result ≡ (source self.now).span };

    // The next word, or none where none is to come; then nothing changes.
    fn next_word(&mut self) -> Option<u32>
        ensures asked { Asked (source self.old) result (source self.new) }
        ensures kept { result ≡ None → self.new ≡ self.old };
}
