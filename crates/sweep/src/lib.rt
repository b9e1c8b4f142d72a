// The sweep over the kept seconds: it takes them one by one and closes each window as soon as its
// CO2 mass reaches the reference. A run makes a budget of moves and can be taken up again.
// specs/Window.antt says what a window is, specs/Sweep.antt what a move, a run and an answer are.
#![tactic(auto)]

ghost use Rattle.std.specs.Prelude.{◌≡◌, ◌^◌, ◌<◌, ◌≤◌, false, leb, length};
ghost use Rattle.base.specs.Refusal.{fault, fault_in, number_of};
ghost use Rattle.base.specs.Words.{sum};
ghost use Rattle.sweep.specs.Sweep.{beginning, is_over, move, move_ends, after_moves, ends_after, is_reached, first_out_of_range, place_of, sweep_refusal, sweep_answer, sweep_ends};
ghost use Rattle.sweep.specs.Inside.{Measured, Ready, closed_rightly, needed_last};

use base::{Refusal, Refused};

// Where a sweep stands. It begins with all four zero.
#[repr(C)]
#[derive(Clone, Copy, Default)]
pub struct SweepState {
    pub taken: u64, // kept seconds taken
    pub dropped: u64, // kept seconds dropped: as many windows are closed
    pub mass: u64, // CO2 of the seconds taken and not dropped, mg
    pub moves: u64, // moves made since the beginning
}

// The answer of a call of the sweep.
// Kept: the C interface: a number of refusal and its place beside the rest, as C reads them.
#[repr(C)]
#[derive(Clone, Copy)]
pub struct Swept {
    pub refusal: u8, // 0, or 5, 2, 6, 3, 13
    pub place: usize, // for refusal 3 the index of the first bad mass, else 0
    pub state: SweepState, // where the sweep stands now
    pub moves: u64, // moves made by this call
    pub over: bool, // whether no move is left
}

// What is swept: the masses of the kept seconds, and the reference that closes a window.
#[derive(Clone, Copy)]
struct Kept<'a> {
    reference: u32,
    co2: &'a [u32],
}

// Sweeps on from a state with a budget of moves. The lane of ends needs a place for each kept
// second; the place of a first second gets its window's end, first kept second numbered 1.
pub fn sweep(reference: u32, co2: &[u32], ends: &mut [u16], state: SweepState, budget: u64) -> Swept
    ensures { (result ≡ sweep_answer reference co2.now (length ends.old) state budget) × (ends.new ≡ sweep_ends reference co2.now ends.old state budget) }
{
    let kept = Kept { reference, co2 };
    if let Err(refused) = kept.check(ends.len(), state) {
        return Swept::from(refused);
    }
    let now = kept.run(ends, state, budget);
    Swept {
        refusal: base::refusal::ACCEPTED,
        place: 0,
        state: now,
        moves: now.moves - state.moves,
        over: kept.is_over(now),
    }
}

// A refusal answers its number and place, and zeros.
impl From<Refused> for Swept {
    ghost from_gives = { λ refused swept. swept ≡ record { refusal = number_of refused.refusal; place = refused.place; state = beginning; moves = 0; over = false } };

    fn from(refused: Refused) -> Swept {
        Swept {
            refusal: u8::from(refused.refusal),
            place: refused.place,
            state: SweepState::default(),
            moves: 0,
            over: false,
        }
    }
}

impl Kept<'_> {
    // What is refused of a call; the lane of ends has this room.
    fn check(&self, room: usize, state: SweepState) -> Result<(), Refused>
        ensures { let refusal = sweep_refusal self.now.reference self.now.co2.now room state in
            fault_in result ≡ fault refusal (place_of self.now.co2.now refusal) }
    {
        if !base::reference_in_range(self.reference) {
            return Err(Refusal::PlanOutOfRange.into());
        }
        if base::too_many(self.co2.len()) {
            return Err(Refusal::TooMany.into());
        }
        if room < self.co2.len() {
            return Err(Refusal::LaneTooShort.into());
        }
        if !all_in_range(self.co2) {
            return Err(Refused {
                refusal: Refusal::OutOfRange,
                place: first_out_of_range(self.co2),
            });
        }
        if !self.is_reached(state) {
            return Err(Refusal::StateNotReached.into());
        }
        Ok(())
    }

    // Whether the sweep reaches a state, without making its moves again: the mass is that of the
    // seconds taken and not dropped, the last second dropped was the first of a window, and the
    // last second taken was needed.
    fn is_reached(&self, state: SweepState) -> bool
        requires { (1 ≤ self.now.reference) × Measured self.now.co2.now }
        ensures { result ≡ is_reached self.now.reference self.now.co2.now state }
    {
        let taken = state.taken;
        let dropped = state.dropped;
        let mass = state.mass;
        if (self.co2.len() as u64) < taken {
            return false;
        }
        if taken < dropped {
            return false;
        }
        if state.moves != taken + dropped {
            return false;
        }
        let first = dropped as usize;
        let end = taken as usize;
        if mass != total(&self.co2[first..end]) as u64 {
            return false;
        }
        self.closed_rightly(first, mass) & self.needed_last(end, mass)
    }

    // Whether the last second dropped was the first of a window, where this mass was left.
    fn closed_rightly(&self, dropped: usize, mass: u64) -> bool
        requires { (dropped ≤ length self.now.co2.now) × (mass < 2 ^ 32) }
        ensures { result ≡ closed_rightly self.now.reference self.now.co2.now dropped mass }
    {
        if dropped == 0 {
            return true;
        }
        (self.reference as u64) <= mass + self.co2[dropped - 1] as u64
    }

    // Whether the last second taken was needed, where this mass was left.
    fn needed_last(&self, taken: usize, mass: u64) -> bool
        requires { taken ≤ length self.now.co2.now }
        ensures { result ≡ needed_last self.now.reference self.now.co2.now taken mass }
    {
        if taken == 0 {
            return true;
        }
        mass < self.reference as u64 + self.co2[taken - 1] as u64
    }

    // Makes the budget's moves, or fewer where the sweep is over: a move that counts none finds it
    // so.
    fn run(&self, ends: &mut [u16], start: SweepState, budget: u64) -> SweepState
        requires { Ready self.now.reference self.now.co2.now (length ends.old) start }
        ensures { (result ≡ after_moves self.now.reference self.now.co2.now budget start) × (ends.new ≡ ends_after self.now.reference self.now.co2.now budget start ends.old) }
    {
        let mut state = start;
        for _made in 0..budget {
            let next = self.one_move(ends, state);
            if next.moves == state.moves {
                return next;
            }
            state = next;
        }
        state
    }

    // Whether no move is left.
    fn is_over(&self, state: SweepState) -> bool
        ensures { result ≡ is_over self.now.reference self.now.co2.now state }
    {
        (state.mass < self.reference as u64) & ((self.co2.len() as u64) <= state.taken)
    }

    // One move.
    fn one_move(&self, ends: &mut [u16], state: SweepState) -> SweepState
        requires { Ready self.now.reference self.now.co2.now (length ends.old) state }
        ensures { (result ≡ move self.now.reference self.now.co2.now state) × (ends.new ≡ move_ends self.now.reference self.now.co2.now state ends.old) }
    {
        let taken = state.taken;
        let dropped = state.dropped;
        let mass = state.mass;
        let moves = state.moves + 1;
        if (self.reference as u64) <= mass {
            let first = dropped as usize;
            ends[first] = taken as u16;
            return SweepState {
                taken,
                dropped: dropped + 1,
                mass: mass - self.co2[first] as u64,
                moves,
            };
        }
        if taken < self.co2.len() as u64 {
            let next = taken as usize;
            return SweepState {
                taken: taken + 1,
                dropped,
                mass: mass + self.co2[next] as u64,
                moves,
            };
        }
        state
    }
}

// The first kept mass that is out of range, or the number of masses.
// Kept: no plainer: it is asked only where a mass is bad, and then its index is the place that is answered.
fn first_out_of_range(co2: &[u32]) -> usize
    ensures { result ≡ first_out_of_range co2.now }
{
    co2.iter()
        .position(|mass| !base::co2_in_range(*mass))
        .unwrap_or(co2.len())
}

// Whether no kept mass is out of range. It looks at each, so that many are compared at a time.
fn all_in_range(co2: &[u32]) -> bool
    ensures { result ≡ leb (length co2.now) (first_out_of_range co2.now) }
{
    let mut fine = true;
    for mass in co2 {
        fine &= *mass <= base::limits::CO2;
    }
    fine
}

// The sum of kept masses. Both halves are added at once, in half the steps.
// Kept: slower: by `co2.iter().sum()` a call that checks 6,000 masses takes 1.13 times as long as before.
pub fn total(co2: &[u32]) -> u32
    requires { sum co2.now < 2 ^ 32 }
    ensures { result ≡ sum co2.now }
{
    let half = co2.len() / 2;
    let mut mass: u32 = 0;
    for i in 0..half {
        mass += co2[i] + co2[half + i];
    }
    if half + half == co2.len() {
        return mass;
    }
    mass + co2[half + half]
}
