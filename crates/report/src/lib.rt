// The printed lines of a trip, as bytes in a lent buffer: the six lines of a judged trip, or the
// one line of a refusal. specs/Lines.antt says what is right, letter by letter.
#![tactic(auto)]

ghost use Rattle.std.specs.Prelude.{◌≡◌, ◌+◌, ◌*◌, ◌≤◌, leb, length};
ghost use Rattle.text.specs.Text.{decimal};
ghost use Rattle.report.specs.Lines.{count_lines, class_lines, reasons_line, judged_text, refusal_text, length_written, buffer_written};
ghost use Rattle.text.specs.Inside.{word_digits, Fits, Writes};

use text::{Writing, digit_count};

// A class line: the windows of a class, and those of them that are inside.
// Kept: no plainer: `windows::ClassCount` has the counts of a trip, in fewer bits, and report stands on no crate of trips.
#[derive(Clone, Copy)]
pub struct ClassLine {
    pub windows: u64,
    pub inside: u64,
}

// The numbers of the six lines.
#[derive(Clone, Copy)]
pub struct Judged {
    pub seconds: u64, // all seconds
    pub missing: u64,
    pub kept: u64,
    pub windows: u64, // unclassed ones too
    pub moves: u64,
    pub urban: ClassLine,
    pub rural: ClassLine,
    pub motorway: ClassLine,
    pub reasons: u16, // the verdict, a bit per reason
}

// A buffer of this length holds every text.
pub const LONGEST_TEXT: usize = 300;

// Writes the six lines to the front of a buffer and answers how many bytes they take; where they
// do not fit, writes nothing and answers 0.
pub fn report(trip: Judged, buffer: &mut [u8]) -> usize
    ensures { (result ≡ length_written (judged_text trip) buffer.old) × (buffer.new ≡ buffer_written (judged_text trip) buffer.old) }
{
    if !trip.fits(buffer.len()) {
        return 0;
    }
    let mut writing = Writing { buffer, at: 0 };
    trip.put(&mut writing);
    writing.at
}

// Writes the one line of a refusal, as `report` does the six.
// Kept: the C interface: the number, which crosses in the answers that hold it.
pub fn report_refusal(number: u8, place: usize, buffer: &mut [u8]) -> usize
    ensures { (result ≡ length_written (refusal_text number place) buffer.old) × (buffer.new ≡ buffer_written (refusal_text number place) buffer.old) }
{
    let number = number as u64;
    let place = place as u64;
    if buffer.len() < REFUSAL_WORDS + digit_count(number) + digit_count(place) {
        return 0;
    }
    let mut writing = Writing { buffer, at: 0 };
    writing.put_line(b"refused ", number, b" at ", place);
    writing.at
}

// The bytes of the six lines besides their decimal digits.
const JUDGED_WORDS: usize = 80;

// The bytes of a refusal's line besides its decimal digits.
const REFUSAL_WORDS: usize = 13;

impl ClassLine {
    // How many decimal digits its line has.
    fn digits(self) -> usize
        ensures { (result ≡ length (decimal self.windows) + length (decimal self.inside)) × (result ≤ 2 * word_digits) }
    {
        digit_count(self.windows) + digit_count(self.inside)
    }
}

impl Judged {
    // Whether the six lines fit a buffer of that length. Only a short one has the digits counted.
    fn fits(self, room: usize) -> bool
        ensures { result ≡ leb (length (judged_text self)) room }
    {
        LONGEST_TEXT <= room || self.length() <= room
    }

    // The length of the six lines.
    fn length(self) -> usize
        ensures { result ≡ length (judged_text self) }
    {
        JUDGED_WORDS
            + digit_count(self.seconds)
            + digit_count(self.missing)
            + digit_count(self.kept)
            + digit_count(self.windows)
            + digit_count(self.moves)
            + self.urban.digits()
            + self.rural.digits()
            + self.motorway.digits()
    }

    // The six lines, which the caller has seen to fit, as for each step below.
    fn put(self, writing: &mut Writing<'_>)
        requires { Fits writing.old (judged_text self) }
        ensures { Writes writing.old (judged_text self) writing.new }
    {
        self.put_counts(writing);
        self.put_classes(writing);
        self.put_reasons(writing);
    }

    // Lines 1 and 2.
    fn put_counts(self, writing: &mut Writing<'_>)
        requires { Fits writing.old (count_lines self) }
        ensures { Writes writing.old (count_lines self) writing.new }
    {
        writing.put_named(b"seconds ", self.seconds);
        writing.put_line(b" missing ", self.missing, b" kept ", self.kept);
        writing.put_line(b"windows ", self.windows, b" moves ", self.moves);
    }

    // The class lines.
    fn put_classes(self, writing: &mut Writing<'_>)
        requires { Fits writing.old (class_lines self) }
        ensures { Writes writing.old (class_lines self) writing.new }
    {
        writing.put_line(b"urban ", self.urban.windows, b" ", self.urban.inside);
        writing.put_line(b"rural ", self.rural.windows, b" ", self.rural.inside);
        writing.put_line(
            b"motorway ",
            self.motorway.windows,
            b" ",
            self.motorway.inside,
        );
    }

    // The line of the reasons.
    fn put_reasons(self, writing: &mut Writing<'_>)
        requires { Fits writing.old (reasons_line self.reasons) }
        ensures { Writes writing.old (reasons_line self.reasons) writing.new }
    {
        writing.put_words(b"reasons ");
        writing.put_hex(self.reasons);
        writing.put_words(b"\n");
    }
}
