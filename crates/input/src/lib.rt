// Standard input, read block by block into a reader and five lanes, to its end, to the first bad
// item, or to a read that fails. No contract can say which bytes a read moves; the contracts here say
// what is made of the bytes that came. specs/Input.antt says what is right.
#![tactic(auto)]

ghost use Rattle.std.specs.Prelude.{◌≡◌, ◌≤◌, true, false, length, take, MatchResult, IfOk, IfErr};
ghost use Rattle.base.specs.Refusal.{accepted};
ghost use Rattle.second.specs.Lanes.{lanes_lent};
ghost use Rattle.second.specs.Same.{SameLent};
ghost use Rattle.reader.specs.Inside.{was_made};
ghost use Rattle.input.specs.Inside.{HasFed};
ghost use Rattle.input.specs.Input.{block_most, reads_on, HasRead};

use base::{limits, refusal};
use item::kind;
use reader::Reader;
use reader::made::Made;
use second::LentLanes;
use std::io::{Read, Stdin};

// The most bytes of one read.
pub const BLOCK: usize = 4_096;

// So many bytes settle every stream: a plan, the longest trip of the longest seconds, and one item
// more. A read before the end gives at least one byte, so that no more reads are needed.
const READS: usize = kind::PLAN_SIZE + limits::TRIP * kind::LONGEST_SECOND + kind::LONGEST;

// Where the reading of the input stands.
#[derive(Clone, Copy)]
pub struct Input {
    pub reader: Reader,
    pub came: usize, // how many bytes the last read brought, 0 at the end
}

impl Input {
    // Whether more bytes can come and change the answer.
    pub fn reads_on(&self) -> bool
        ensures { result ≡ reads_on self.now }
    {
        (self.came != 0) & (self.reader.refusal == refusal::ACCEPTED)
    }
}

// Reads the input until no further byte can change the answer: to its end, or to the first bad item. A
// read that fails ends the reading: then it answers the reader as it stood.
pub fn read_input(
    stdin: Stdin,
    block: &mut [u8],
    lanes: &mut LentLanes<'_>,
) -> Result<Input, Reader>
    requires { length block.old ≡ block_most }
    ensures read { MatchResult result (λ input. HasRead (lanes_lent lanes.old) input.reader (lanes_lent lanes.new)) (λ reader. HasRead (lanes_lent lanes.old) reader (lanes_lent lanes.new)) }
    ensures ended { IfOk result (λ input. reads_on input ≡ false) }
    ensures same { SameLent lanes.old lanes.new }
{
    let mut made = Made {
        reader: reader::start(),
    };
    for _ in 0..READS {
        let input = read_block(stdin, made, block, lanes)?;
        if !input.reads_on() {
            return Ok(input);
        }
        made = Made {
            reader: input.reader,
        };
    }
    unreachable!()
}

// Reads a block, as many bytes as there are, and feeds it to the reader: these bytes, once. A read that
// fails, also where a signal interrupts it, answers the reader as it stood, and the lanes are as they were.
fn read_block(
    mut stdin: Stdin,
    made: Made,
    block: &mut [u8],
    lanes: &mut LentLanes<'_>,
) -> Result<Input, Reader>
    requires unsettled { made.reader.refusal ≡ accepted }
    requires block_len { length block.old ≡ block_most }
    ensures fed { IfOk result (λ input. HasFed (lanes_lent lanes.old) made.reader (take input.came block.new) input.reader (lanes_lent lanes.new)) }
    ensures failed { IfErr result (λ reader. (reader ≡ made.reader) × (lanes_lent lanes.new ≡ lanes_lent lanes.old)) }
    ensures within { IfOk result (λ input. input.came ≤ block_most) }
    ensures made { IfOk result (λ input. was_made input.reader ≡ true) }
    ensures same { SameLent lanes.old lanes.new }
{
    let Ok(came) = stdin.read(block) else {
        return Err(made.reader);
    };
    let next = blocks::take(made, &block[..came], lanes);
    Ok(Input {
        reader: next.reader,
        came,
    })
}
