// One item of the trip stream.

ghost use Rattle.std.specs.Prelude.{◌≡◌};
ghost use Rattle.crossing.specs.Items.{contents_of, item_answer, item_across};

use base::Plan;
use base::refusal::ACCEPTED;
use item::Item;
use second::Row;
use stream::NO_PLAN;

// One item. Only the members of its kind are set.
// Kept: the C interface: a number of refusal and its place beside the rest, as C reads them.
#[repr(C)]
#[derive(Clone, Copy)]
pub struct ItemAnswer {
    pub refusal: u8, // 0, 8, 7, 5 or 3
    pub kind: u8, // the kind byte; 0 in a refusal
    pub speed: u16,
    pub altitude: i32,
    pub co2: u32,
    pub nox: u32,
    pub plan: Plan,
    pub length: usize, // with the kind byte; 0 in a refusal
    pub place: usize, // 0
}

// One item from the front of some bytes.
#[tactic(auto, unfolding(crate::specs::Items::front_across, crate::specs::Items::contents_at))]
pub fn item(bytes: &[u8]) -> ItemAnswer
    ensures { result ≡ item_across bytes.now }
{
    match item::read_item(bytes) {
        Ok((item, size)) => answer(ACCEPTED, bytes[0], contents_of(item), size),
        Err(refusal) => answer(u8::from(refusal), 0, NO_CONTENTS, 0),
    }
}

// What an item holds: a plan or a second, and zeros for the other.
#[derive(Clone, Copy)]
struct Contents {
    pub row: Row,
    pub plan: Plan,
}

const NO_ROW: Row = Row {
    state: 0,
    speed: 0,
    altitude: 0,
    co2: 0,
    nox: 0,
};

const NO_CONTENTS: Contents = Contents {
    row: NO_ROW,
    plan: NO_PLAN,
};

// The contents of an item.
#[tactic(auto, unfolding(crate::specs::Items::contents_of))]
fn contents_of(item: Item) -> Contents
    ensures { result ≡ contents_of item }
{
    match item {
        Item::Plan(plan) => Contents { row: NO_ROW, plan },
        Item::Second(row) => Contents { row, plan: NO_PLAN },
    }
}

// The answer as it crosses.
// Kept: the C interface: the number of refusal and the kind are what crosses.
fn answer(refusal: u8, kind: u8, contents: Contents, length: usize) -> ItemAnswer
    ensures { result ≡ item_answer refusal kind contents length 0 }
{
    let Contents { row, plan } = contents;
    let altitude = row.altitude;
    ItemAnswer {
        refusal,
        kind,
        speed: row.speed,
        altitude,
        co2: row.co2,
        nox: row.nox,
        plan,
        length,
        place: 0,
    }
}
