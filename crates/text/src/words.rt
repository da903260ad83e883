// Words and their places in a text, and a reader that gives the words of a line one by one.
ghost use Rattle.std.specs.Prelude.{◌≡◌, ◌≤◌, length, MatchBool, MatchOption};
ghost use Rattle.text.specs.Lines.{point, top, blank, inside, onward, place_below, WordNext, NoWord, LineNext, LastLine, NoMore, WordBelow, end_place};

/// A line and a column of a text, both from 1. A place past the largest number is that number.
#[derive(Clone, Copy)]
pub struct Place {
    pub line: usize,
    pub column: usize,
}

/// Bytes of a text, and the place of the first.
#[derive(Clone, Copy)]
pub struct Word<'a> {
    pub text: &'a [u8],
    pub place: Place,
}

/// What is left of a text, and the place where it begins.
#[derive(Clone, Copy)]
pub struct Reader<'a> {
    rest: &'a [u8],
    place: Place,
}

impl Place {
    /// The place `n` columns further on in the same line.
    pub fn onward(self, n: usize) -> Place
        ensures { result ≡ onward self n }
    {
        Place {
            line: self.line,
            column: self.column.saturating_add(n),
        }
    }

    /// The start of the next line.
    pub fn below(self) -> Place
        ensures { result ≡ place_below self }
    {
        Place {
            line: self.line.saturating_add(1),
            column: 1,
        }
    }
}

fn is_blank(b: u8) -> bool
    ensures { result ≡ blank b }
{
    matches!(b, b' ' | b'\t' | b'\r')
}

fn is_inside(b: u8) -> bool
    ensures { result ≡ inside b }
{
    !is_blank(b) && !matches!(b, b'#' | b'\n')
}

impl<'a> Reader<'a> {
    /// A reader at the start of the text.
    pub fn new(text: &'a [u8]) -> Reader<'a>
        ensures { point result ≡ top text.now }
    {
        Reader {
            rest: text,
            place: Place { line: 1, column: 1 },
        }
    }

    /// The place right after what was read.
    pub fn place(&self) -> Place
        ensures { result ≡ self.now.place }
    {
        self.place
    }

    /// The next word of the line; where there is none the reader stays.
    pub fn word(&mut self) -> Option<Word<'a>>
        ensures { MatchOption result (NoWord (point self.old) × (self.new ≡ self.old)) (λ w. WordNext (point self.old) w (point self.new)) }
    {
        let gap = self.rest.iter().take_while(|&&b| is_blank(b)).count();
        let after = &self.rest[gap..];
        let n = after.iter().take_while(|&&b| is_inside(b)).count();
        if n == 0 {
            return None;
        }
        let place = self.place.onward(gap);
        self.rest = &after[n..];
        self.place = place.onward(n);
        Some(Word {
            text: &after[..n],
            place,
        })
    }

    /// Goes to the start of the next line, and says whether there is one.
    pub fn next_line(&mut self) -> bool
        ensures { MatchBool result (LineNext (point self.old) (point self.new)) (LastLine (point self.old) × (self.new ≡ self.old)) }
    {
        let Some(n) = self.rest.iter().position(|&b| b == b'\n') else {
            return false;
        };
        self.rest = &self.rest[n + 1..];
        self.place = self.place.below();
        true
    }

    /// The next word of this line or, where it has no more, of the next line that has one.
    /// Where no word is left the reader is in the last line.
    pub fn first_word(&mut self) -> Option<Word<'a>>
        ensures { MatchOption result (NoMore (point self.old) (point self.new)) (λ w. WordBelow (point self.old) w (point self.new)) }
    {
        loop {
            if let Some(word) = self.word() {
                return Some(word);
            }
            if !self.next_line() {
                return None;
            }
        }
    }

    /// The start of the line after the last one, for a reader in the last line.
    pub fn end(&self) -> Place
        ensures { result ≡ end_place (point self.now) }
    {
        if self.rest.is_empty() && self.place.column == 1 {
            self.place
        } else {
            self.place.below()
        }
    }
}
