// The program: reads a trip stream from standard input, block by block, judges it, and prints the
// six lines, or the one line of a refusal. A read that fails is no end of the stream: then it says
// so on standard error and judges nothing. No contract can say which bytes a read or a write moves;
// the contracts here say what is made of the bytes that came, up to the text in the buffer that is
// written out.
#![tactic(auto)]

ghost use Rattle.std.specs.Prelude.{◌≡◌, true, false, length};
ghost use Rattle.base.specs.Words.{with_front};
ghost use Rattle.second.specs.Lanes.{lanes_in, lanes_lent};
ghost use Rattle.trip.specs.Lent.{rooms_in, lent_in};
ghost use Rattle.trip.specs.Same.{SameWork};
ghost use Rattle.report.specs.Lines.{longest_text};
ghost use Rattle.printed.specs.Printed.{printed_text, lent_after};
ghost use Rattle.input.specs.Input.{block_most};
ghost use Rattle.judge.specs.Inside.{HasPlaces};
ghost use Rattle.judge.specs.Judged.{JudgedAsOne};

use second::{LentLanes, Trip};
use std::io::{Stderr, Stdin, Stdout, Write};
use stream::ReadAnswer;
use trip::Workspace;

// The places of each lane that the program lends, a second in each. No lane passes 64 KiB.
const PLACES: usize = 8_192;

// Lends what is filled: a block, nine lanes, and a buffer for the longest text. Says on standard error
// where the input could not be read.
fn main(rt: HostRuntime) {
    let mut block = [0u8; input::BLOCK];
    let mut states = [0u8; PLACES];
    let mut speeds = [0u16; PLACES];
    let mut altitudes = [0i32; PLACES];
    let mut co2 = [0u32; PLACES];
    let mut nox = [0u32; PLACES];
    let mut kept_speeds = [0u16; PLACES];
    let mut kept_co2 = [0u32; PLACES];
    let mut ends = [0u16; PLACES];
    let mut ranks = [0u32; PLACES];
    let mut text = [0u8; report::LONGEST_TEXT];
    let mut lanes = LentLanes {
        states: &mut states,
        speeds: &mut speeds,
        altitudes: &mut altitudes,
        co2: &mut co2,
        nox: &mut nox,
    };
    let mut work = Workspace {
        kept_speeds: &mut kept_speeds,
        kept_co2: &mut kept_co2,
        ends: &mut ends,
        ranks: &mut ranks,
    };
    let could_read = judge_input(
        rt.stdin(),
        rt.stdout(),
        rt.stderr(),
        &mut block,
        &mut lanes,
        &mut work,
        &mut text,
    );
    if !could_read {
        write_whole(&mut rt.stderr(), b"unreadable\n");
    }
}

// Reads the input into the lanes, judges it and prints. What it prints is what the whole-stream call,
// the evaluation and the report say of one stream. Answers whether the input could be read; where it
// could not, nothing is judged.
fn judge_input(
    stdin: Stdin,
    stdout: Stdout,
    stderr: Stderr,
    block: &mut [u8],
    lanes: &mut LentLanes<'_>,
    work: &mut Workspace<'_>,
    text: &mut [u8],
) -> bool
    requires block_len { length block.old ≡ block_most }
    requires has_places { HasPlaces (lanes_lent lanes.old) (rooms_in (lent_in work.old)) }
    requires text_len { length text.old ≡ longest_text }
    ensures judged { result ≡ true → JudgedAsOne (lanes_lent lanes.old) (rooms_in (lent_in work.old)) text.old text.new }
    ensures unjudged { result ≡ false → text.new ≡ text.old }
{
    let Ok(input) = input::read_input(stdin, block, lanes) else {
        return false;
    };
    let read = reader::end(input.reader);
    print_answer(stdout, stderr, read, &lanes.as_trip(), work, text);
    true
}

// Judges what was read into the lanes, writes the answer to the text's buffer and prints it.
fn print_answer(
    stdout: Stdout,
    stderr: Stderr,
    read: ReadAnswer,
    lanes: &Trip<'_>,
    work: &mut Workspace<'_>,
    text: &mut [u8],
)
    requires { length text.old ≡ longest_text }
    ensures printed { text.new ≡ with_front (printed_text read (lanes_in lanes.now) (rooms_in (lent_in work.old))) text.old }
    ensures left { lent_in work.new ≡ lent_after read (lanes_in lanes.now) (lent_in work.old) }
    ensures same { SameWork work.old work.new }
{
    let length = printed::write_text(read, lanes, work, text);
    let mut out = stdout;
    if !write_whole(&mut out, &text[..length]) {
        let mut error = stderr;
        write_whole(&mut error, b"unwritable\n");
    }
}

// Writes all of the bytes and answers true, or stops at the first write that takes none or fails, and
// answers false.
fn write_whole<W: Write>(to: &mut W, bytes: &[u8]) -> bool {
    let mut done = 0;
    // Kept: may not change: a write that a signal interrupts ends it, where `write_all` would go on.
    while done < bytes.len() {
        let took = to.write(&bytes[done..]).unwrap_or(0);
        if took == 0 {
            return false;
        }
        done += took;
    }
    true
}
