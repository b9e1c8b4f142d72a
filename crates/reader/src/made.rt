// Which readers the calls make: specs/Inside.antt says it, test by test, and
// specs/Reached.antt what it comes to.

ghost use Rattle.std.specs.Prelude.{◌≡◌, ◌≤◌, true, false, drop, MatchResult};
ghost use Rattle.base.specs.Limits.{trip_limit};
ghost use Rattle.base.specs.Refusal.{number_of};
ghost use Rattle.base.specs.Words.{pick};
ghost use Rattle.item.specs.Format.{plan_kind, item_length};
ghost use Rattle.reader.specs.Reader.{plan_before};
ghost use Rattle.reader.specs.Inside.{is_no_plan, made_before, can_end, made_after, standing_made, all_zero, carry_made, number_before, number_after, settled_made, was_made};

use crate::Reader;
use base::{Plan, Refusal, limits, refusal};
use item::kind;

// A reader that the calls make.
#[derive(Clone, Copy)]
pub struct Made {
    pub reader: Reader,
    ghost was_made: { was_made reader ≡ true },
}

// No other is read on from, or has an end.
impl TryFrom<Reader> for Made {
    ghost use Rattle.std.specs.Prelude.{◌≡◌, false, MatchResult};
    ghost use Rattle.base.specs.declared.refusal.Refusal.TheVariants.{StateNotReached};
    ghost use Rattle.reader.specs.Inside.{was_made};

    type Error = Refusal;

    ghost try_from_gives = { λ reader result. MatchResult result (λ made. made.reader ≡ reader) (λ refusal. (refusal ≡ StateNotReached) × (was_made reader ≡ false)) };

    fn try_from(reader: Reader) -> Result<Made, Refusal> {
        if !was_made(reader) {
            return Err(Refusal::StateNotReached);
        }
        Ok(Made { reader })
    }
}

// Whether the calls make a reader.
fn was_made(reader: Reader) -> bool
    ensures { result ≡ was_made reader }
{
    if !standing_made(reader) {
        return false;
    }
    if reader.refusal == refusal::ACCEPTED {
        return carry_made(reader);
    }
    settled_made(reader)
}

// Whether what it has read is right in itself.
fn standing_made(reader: Reader) -> bool
    ensures { result ≡ standing_made reader }
{
    let at = reader.at;
    if crate::plan_before(at) {
        return made_after(reader);
    }
    made_before(reader)
}

// Whether nothing was read before the plan.
fn made_before(reader: Reader) -> bool
    ensures { result ≡ made_before reader }
{
    let plan = reader.plan;
    let seconds = reader.seconds;
    is_no_plan(plan) & (seconds == 0)
}

// Whether a plan is all zero.
fn is_no_plan(plan: Plan) -> bool
    ensures { result ≡ is_no_plan plan }
{
    plan == stream::NO_PLAN
}

// Whether the plan, the seconds and the offset go together.
fn made_after(reader: Reader) -> bool
    ensures { result ≡ made_after reader }
{
    let plan = reader.plan;
    let seconds = reader.seconds;
    let at = reader.at;
    if limits::TRIP < seconds {
        return false;
    }
    base::plan_in_range(plan) & offset_made(seconds, at)
}

// Whether a plan and so many seconds can end at `at`: a second has one of two lengths, so they end past
// as many of the shortest by a multiple of the difference.
fn offset_made(seconds: usize, at: usize) -> bool
    requires { seconds ≤ trip_limit }
    ensures { result ≡ can_end seconds (item_length plan_kind) at }
{
    let least = kind::PLAN_SIZE + kind::MISSING_SIZE * seconds;
    if at < least {
        return false;
    }
    (at <= kind::PLAN_SIZE + kind::SECOND_SIZE * seconds) & ((at - least) % VALUES_SIZE == 0)
}

// What a second with values is longer than a missing one.
const VALUES_SIZE: usize = kind::SECOND_SIZE - kind::MISSING_SIZE;

// Whether it holds nothing, or the front of an item of a known kind.
fn carry_made(reader: Reader) -> bool
    ensures { result ≡ carry_made reader }
{
    let count = reader.count;
    let held = reader.held;
    ((count == 0) | (count < item::size_of(held[0]))) & all_zero(&held, count)
}

// Whether all bytes from a place on are zero.
fn all_zero(bytes: &[u8], from: usize) -> bool
    ensures { result ≡ all_zero (drop from bytes.now) }
{
    bytes.iter().skip(from).all(|byte| *byte == 0)
}

// Whether it holds nothing, and an item can have the number that settled it.
fn settled_made(reader: Reader) -> bool
    ensures { result ≡ settled_made reader }
{
    let count = reader.count;
    let held = reader.held;
    (count == 0) & all_zero(&held, 0) & number_made(reader)
}

// Whether an item can have this number where the reader stands.
fn number_made(reader: Reader) -> bool
    ensures { result ≡ pick (plan_before reader.at) (number_after reader.refusal reader.seconds) (number_before reader.refusal) }
{
    let planned = crate::plan_before(reader.at);
    match Refusal::try_from(reader.refusal) {
        Ok(refusal) => settles(refusal, planned, reader.seconds),
        Err(()) => false,
    }
}

// Whether an item can be refused so, before the plan was read or after it and some seconds.
fn settles(refusal: Refusal, planned: bool, seconds: usize) -> bool
    ensures { result ≡ pick planned (number_after (number_of refusal) seconds) (number_before (number_of refusal)) }
{
    match refusal {
        Refusal::UnknownKind | Refusal::PlanMisplaced => true,
        Refusal::PlanOutOfRange => !planned,
        Refusal::OutOfRange => planned,
        Refusal::TooMany => planned & (limits::TRIP <= seconds),
        Refusal::LaneTooShort => planned & (seconds < limits::TRIP),
        _ => false,
    }
}
