// Lines of a lent buffer.
ghost use Rattle.std.specs.Prelude.{◌≡◌, length, MatchOption};
ghost use Rattle.frame.specs.Lines.{NoFeed, FirstFeed, Behind, part, line_at};

// "The frame reader holds the lent buffer and how far it has read"
#[derive(Clone, Copy)]
pub struct Reader<'a> {
    pub buffer: &'a [u8],
    pub at: usize,
}

// The characters from `from` up to `end`, or none where these are no part of the buffer.
fn between(buffer: &[u8], from: usize, end: usize) -> &[u8]
    ensures { result.now ≡ part buffer.now from end }
{
    buffer.get(from..end).unwrap_or(&[])
}

// How many characters stand before the first line feed.
fn before_feed(characters: &[u8]) -> Option<usize>
    ensures { MatchOption result (NoFeed characters.now 0 (length characters.now)) (λ n. FirstFeed characters.now 0 n) }
{
    characters.iter().position(|character| *character == b'\n')
}

// How far the line at `at` is read: up to behind its line feed, or, while no line feed stands in what is left, not at all.
fn behind(buffer: &[u8], at: usize) -> usize
    ensures { Behind buffer.now at result }
{
    match before_feed(between(buffer, at, buffer.len())) {
        Some(before) => at + before + 1,
        None => at,
    }
}

impl<'a> Reader<'a> {
    // A reader of the buffer that has read it up to `at`.
    pub fn new(buffer: &'a [u8], at: usize) -> Reader<'a>
        ensures { (result.buffer ≡ buffer.entry) × (result.at ≡ at) }
    {
        Reader { buffer, at }
    }

    // The reader behind its line, or, while that has no line feed, where it was.
    pub fn next(self) -> Reader<'a>
        ensures { (result.buffer ≡ self.entry.buffer) × Behind self.entry.buffer.now self.entry.at result.at }
    {
        Reader {
            at: behind(self.buffer, self.at),
            ..self
        }
    }

    // "and hands back the frame's digits as a part of that buffer": those of the reader's line, without its line feed, where the reader
    // behind it stands at `to`; where nothing is read, all that is left.
    pub fn digits(self, to: usize) -> &'a [u8]
        ensures { result.now ≡ line_at self.entry.buffer.now self.entry.at to }
    {
        let end = if self.at < to {
            to - 1
        } else {
            self.buffer.len()
        };
        between(self.buffer, self.at, end)
    }
}
