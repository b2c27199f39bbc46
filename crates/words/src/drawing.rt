// A number below a bound, each equally likely where the words are.
ghost use Rattle.std.specs.Prelude.{◌≤◌};
ghost use Rattle.words.specs.Drawing.{Drawn, GreatestMultiple, EvenHanded};

use crate::source::WordSource;
use terms::Fault;

// The most words that one drawing reads.
const MAX_WORDS: u8 = 64;

// Words at or above the greatest multiple of `bound` within the span are rejected, so that each
// number comes from equally many words; the first other word gives the number.
pub fn draw_below<W: WordSource>(words: &mut W, bound: u64) -> Result<u32, Fault>
    ensures drawn { Drawn (W.WordSource.source words.old) bound (W.WordSource.source words.new) result }
    ensures greatest { 1 ≤ bound → GreatestMultiple (W.WordSource.source words.old).span bound }
    ensures even { 1 ≤ bound → EvenHanded (W.WordSource.source words.old).span bound }
{
    let span = words.span();
    if bound == 0 || bound > span {
        return Err(Fault::BoundOutOfRange);
    }
    let limit = span / bound * bound;
    for read in 0..MAX_WORDS {
        let word = words.next_word().ok_or(Fault::WordsEnded(read))? as u64;
        if word < limit {
            return Ok((word % bound) as u32);
        }
    }
    Err(Fault::WordsRejected)
}
