// What is printed for a trip stream that was read into lanes: the stream's refusal, or else the
// trip's, or the six lines. specs/Printed.antt says what is right, in the paper's words.
#![tactic(auto)]

ghost use Rattle.std.specs.Prelude.{◌≡◌, ◌≤◌, length};
ghost use Rattle.second.specs.Lanes.{lanes_in};
ghost use Rattle.report.specs.Lines.{length_written, buffer_written, longest_text};
ghost use Rattle.trip.specs.Lent.{rooms_in, lent_in};
ghost use Rattle.trip.specs.Same.{SameWork};
ghost use Rattle.printed.specs.Printed.{first_seconds, class_line_of, lines_of, trip_text, printed_text, lent_after};

use base::refusal::ACCEPTED;
use report::{ClassLine, Judged};
use second::Trip;
use stream::ReadAnswer;
use trip::{Evaluated, Workspace};
use windows::ClassCount;

// Judges the seconds that were read, which stand at the front of the five lanes, writes what is
// printed to the front of a buffer, and answers how many bytes it takes; a buffer of
// `report::LONGEST_TEXT` bytes always suffices, and where one does not, nothing is written and the
// answer is 0. The four lent lanes need a place per second.
pub fn write_text(
    read: ReadAnswer,
    lanes: &Trip<'_>,
    work: &mut Workspace<'_>,
    buffer: &mut [u8],
) -> usize
    ensures printed { let text = printed_text read (lanes_in lanes.now) (rooms_in (lent_in work.old)) in
        (result ≡ length_written text buffer.old)
        × (buffer.new ≡ buffer_written text buffer.old)
        × (length text ≤ longest_text) }
    ensures left { lent_in work.new ≡ lent_after read (lanes_in lanes.now) (lent_in work.old) }
    ensures same { SameWork work.old work.new }
{
    if read.refusal != ACCEPTED {
        return report::report_refusal(read.refusal, read.place, buffer);
    }
    let trip = trip::evaluate(read.plan, &first_seconds(lanes, read.seconds), work);
    write_trip(trip, buffer)
}

// The trip of the first so many seconds in the lanes, or of as many as a lane has places for.
fn first_seconds<'a>(lanes: &Trip<'a>, seconds: usize) -> Trip<'a>
    ensures { lanes_in result ≡ first_seconds seconds (lanes_in lanes.now) }
{
    Trip {
        states: &lanes.states[..seconds.min(lanes.states.len())],
        speeds: &lanes.speeds[..seconds.min(lanes.speeds.len())],
        altitudes: &lanes.altitudes[..seconds.min(lanes.altitudes.len())],
        co2: &lanes.co2[..seconds.min(lanes.co2.len())],
        nox: &lanes.nox[..seconds.min(lanes.nox.len())],
    }
}

// Writes what is printed of a trip's answer.
fn write_trip(trip: Evaluated, buffer: &mut [u8]) -> usize
    ensures { (result ≡ length_written (trip_text trip) buffer.old) × (buffer.new ≡ buffer_written (trip_text trip) buffer.old) × (length (trip_text trip) ≤ longest_text) }
{
    if trip.refusal != ACCEPTED {
        return report::report_refusal(trip.refusal, trip.place, buffer);
    }
    report::report(lines_of(trip), buffer)
}

// The numbers of the six lines.
fn lines_of(trip: Evaluated) -> Judged
    ensures { result ≡ lines_of trip }
{
    let [urban, rural, motorway] = trip.classes;
    Judged {
        seconds: trip.seconds as u64,
        missing: trip.missing as u64,
        kept: trip.kept as u64,
        windows: trip.windows as u64,
        moves: trip.moves as u64,
        urban: class_line(urban),
        rural: class_line(rural),
        motorway: class_line(motorway),
        reasons: trip.verdict,
    }
}

// A class line's numbers.
fn class_line(class: ClassCount) -> ClassLine
    ensures { result ≡ class_line_of class }
{
    ClassLine {
        windows: class.windows as u64,
        inside: class.inside as u64,
    }
}
