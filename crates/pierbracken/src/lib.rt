// Pierbracken judges an emissions trip on the road: from a logger's stream of bytes to a verdict of
// sixteen reasons. This page is the whole of it, by groups of calls; each call stands, with the
// contract that it is proved to meet, in the crate that it is taken from. Every call takes all
// inputs and ends; bad input is refused by a number and a place, and a refused call writes into no
// lent lane. specs/ and proofs/ have the theorems about the whole, a file for each demand.
#![tactic(auto)]

// The release of the meaning of "valid" by which this build answers.
pub use meaning::RELEASE;

// The plan of a trip, and a refusal, with its place.
pub use base::{Plan, Refusal, Refused};

// From concentration to mass: the CO2 of a second in mg, the NOx in µg.
pub use mass::{Reading, Setting, co2_mass, nox_mass};

// One item from the front of some bytes.
pub use item::{Item, read_item};
pub use second::Row;

// The five lanes of a trip, as they are read, and as they are lent to be filled.
pub use second::{LentLanes, Trip};

// A whole stream, read into five lent lanes.
pub use stream::{ReadAnswer, read_stream};

// The stream of a plan and five lanes, written into a lent buffer.
pub use writer::{WriteAnswer, write_stream};

// A stream that arrives in blocks, cut anywhere: a reader is fed block by block and asked at the end.
pub use blocks::feed;
pub use reader::{Fed, Reader, end, start};

// The sweep over the kept seconds, cut by a budget of moves and taken up again.
pub use sweep::{SweepState, Swept, sweep};

// D of one second of a trip.
pub use acceleration::d_of_second;

// Q, the percentile of products in any order, ranked into a lent lane.
pub use percentile::percentile;

// The whole trip: kept seconds, windows, bins, climb, and the verdict; its workspace is four lent lanes.
pub use bins::Bin;
pub use tally::Tally;
pub use trip::{Evaluated, Workspace, evaluate};
pub use windows::ClassCount;

// The reasons of a verdict: a mask for each, and whether a verdict has one.
pub use verdict::{
    DULL_BIN, ENDS_APART, FEW_FAST_SECONDS, FEW_PRODUCTS, LIVELY_BIN, MISSING_SECONDS, NO_WINDOWS,
    OUTSIDE_BAND, SHARE_OF_DISTANCE, SHORT_PART, SLOW_SECONDS, TOO_FAST, TOO_HIGH, TOO_MUCH_CLIMB,
    TRIP_LENGTH, URBAN_MEAN, has_reason,
};

// The printed lines, written into a lent buffer.
pub use report::{ClassLine, Judged, LONGEST_TEXT, report, report_refusal};

// What is printed for a stream that was read into lanes.
pub use printed::write_text;
