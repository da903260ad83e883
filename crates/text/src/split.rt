// A word cut in two at its first comma.
ghost use Rattle.std.specs.Prelude.{◌≡◌, ◌≤◌, length, MatchOption};
ghost use Rattle.text.specs.Lines.{All, word_bytes};
ghost use Rattle.text.specs.Commas.{no_comma, CutAt};

use crate::words::Word;

/// What stands before the first comma of the word and what stands after it, either may be empty.
/// None where the word has no comma.
pub fn at_comma<'a>(word: Word<'a>) -> Option<(Word<'a>, Word<'a>)>
    ensures { MatchOption result (All no_comma (word_bytes word.entry)) (λ p. CutAt word.entry p.0 p.1) }
{
    let n = word.text.iter().position(|&b| b == b',')?;
    let before = Word {
        text: &word.text[..n],
        place: word.place,
    };
    let after = Word {
        text: &word.text[n + 1..],
        place: word.place.onward(n + 1),
    };
    Some((before, after))
}
