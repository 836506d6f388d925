//! The lines of an upload, whose bytes may be damaged.
ghost use Rattle.std.specs.Prelude.{◌≡◌, ◌++◌, length};
ghost use Rattle.std.specs.Option.{option_map, option_to_list};
ghost use Rattle.certificates.specs.Lines.{FirstFeed, lines, without_return};
ghost use Rattle.std.specs.Iterator.{at_most};

/// What is left of an upload.
#[derive(Drop)]
pub struct Lines<'a> {
    rest: &'a [u8],
}

impl<'a> Lines<'a> {
    /// The lines of an upload, from the first.
    pub fn new(upload: &'a [u8]) -> Self
        ensures { result.rest.now ≡ upload.now }
    {
        Lines { rest: upload }
    }
}

/// The place of the first line feed.
fn line_feed(bytes: &[u8]) -> Option<usize>
    ensures { FirstFeed bytes.now result }
{
    bytes.iter().position(|byte| *byte == b'\n')
}

impl<'a> Iterator for Lines<'a> {
    type Item = &'a [u8];

    ghost next_gives = { λ s r t. lines s.rest.now ≡ option_to_list (option_map (λ x. x.now) r) ++ lines t.rest.now };

    ghost remaining = { λ s. at_most (length s.rest.now) };

    fn next(&mut self) -> Option<&'a [u8]> {
        let rest = self.rest;
        if rest.is_empty() {
            return None;
        }
        match line_feed(rest) {
            Some(end) => {
                self.rest = &rest[end + 1..];
                Some(&rest[0..end])
            }
            None => {
                self.rest = &[];
                Some(rest)
            }
        }
    }
}

/// A line without the carriage return that some systems put before the line feed.
pub fn without_return(line: &[u8]) -> &[u8]
    ensures { result.now ≡ without_return line.now }
{
    match line {
        [rest @ .., b'\r'] => rest,
        _ => line,
    }
}
