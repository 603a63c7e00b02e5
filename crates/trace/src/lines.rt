ghost use Rattle.std.specs.Prelude.{length};
ghost use Rattle.std.specs.Iterator.{at_most};

// a line of an input, without its line feed, and its number
#[derive(Clone, Copy)]
pub struct Line<'a> {
    pub text: &'a [u8],
    pub number: u64,
}

// what is left of an input, and the number of its latest line
#[derive(Drop)]
pub struct Lines<'a> {
    pub rest: &'a [u8],
    pub number: u64,
}

impl<'a> Line<'a> {
    // Whether the line is neither empty nor a comment.
    pub fn is_spoken(&self) -> bool {
        match self.text {
            [] => false,
            [first, ..] => *first != b'#',
        }
    }
}

impl<'a> Iterator for Lines<'a> {
    type Item = Line<'a>;

    ghost remaining = { λ s. at_most (length s.rest.now) };

    fn next(&mut self) -> Option<Line<'a>> {
        let rest = self.rest;
        if rest.is_empty() {
            return None;
        }
        self.number = self.number.saturating_add(1);
        let number = self.number;
        let Some(at) = rest.iter().position(|b| *b == b'\n') else {
            self.rest = &rest[rest.len()..];
            return Some(Line { text: rest, number });
        };
        self.rest = &rest[at + 1..];
        Some(Line {
            text: &rest[..at],
            number,
        })
    }
}
