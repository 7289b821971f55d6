// The case file, read from its start to its end.
use std::io::Read;

// The longest list or tape that a case may have.
pub(crate) const LONGEST: usize = 4096;

// The case file.
#[derive(Drop)]
pub(crate) struct Input<R> {
    reader: R,
}

impl<R: Read> Input<R> {
    // The case file that a reader has.
    pub(crate) fn new(reader: R) -> Self {
        Input { reader }
    }

    // The next bytes, where the input has so many.
    pub(crate) fn whole<const N: usize>(&mut self) -> Option<[u8; N]> {
        let mut bytes = [0; N];
        let count = streams::read_full(&mut self.reader, &mut bytes);
        (count == N).then_some(bytes)
    }

    // Fills a room with the next bytes, which stay as they are where the input has no more.
    pub(crate) fn fill(&mut self, room: &mut [u8]) {
        streams::read_full(&mut self.reader, room);
    }

    // The next bytes; zeros stand for those that the input no longer has.
    pub(crate) fn padded<const N: usize>(&mut self) -> [u8; N] {
        let mut bytes = [0; N];
        self.fill(&mut bytes);
        bytes
    }

    // The next bytes as a list or a tape of this length, or of the longest, in a room that is lent; zeros stand for those that the input
    // no longer has.
    pub(crate) fn list<'a>(&mut self, length: u16, room: &'a mut [u8; LONGEST]) -> &'a [u8] {
        let list = &mut room[..usize::from(length).min(LONGEST)];
        list.fill(0);
        self.fill(list);
        list
    }
}
