// The line reader: it keeps the lent text and how far it has come, and hands out line after line as parts of the text.
#![tactic(auto)]

ghost use Rattle.std.specs.Prelude.{◌≡◌};
ghost use Rattle.text_lines.specs.Lines.{lines};

use text_lines::line_from;

#[derive(Clone, Copy)]
pub struct LineReader<'a> {
    pub text: &'a [u8],
    pub at: usize,
}

impl<'a> LineReader<'a> {
    ghost use Rattle.text_reader.specs.Left.{lines_left};

    pub fn new(text: &'a [u8]) -> Self
        ensures { lines_left result ≡ lines text.now }
    {
        LineReader { text, at: 0 }
    }
}

impl<'a> Iterator for LineReader<'a> {
    ghost use Rattle.std.specs.Iterator.{YieldsFirstBy, item_count};
    ghost use Rattle.text_reader.specs.Left.{lines_left};

    type Item = &'a [u8];

    ghost next_gives = { YieldsFirstBy (λ line. line.now) lines_left };

    ghost remaining = { item_count lines_left };

    // The line that the reader has come to; it moves past its LF.
    fn next(&mut self) -> Option<&'a [u8]> {
        if self.text.len() <= self.at {
            return None;
        }
        let line = line_from(self.text, self.at);
        self.at += line.len() + 1;
        Some(line)
    }
}
