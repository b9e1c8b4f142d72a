// The numbers of the sixteen reasons. Both ends of a range are in it.

// Shares are in percent.
pub const PERCENT: u64 = 100;

// 0: n, all seconds.
pub const TRIP_LEAST: u32 = 5_400;

pub const TRIP_MOST: u32 = 7_200;

// 1: how many times the missing seconds are below n, and the most of them in a row.
pub const MISSING_TIMES: u64 = 100;

pub const GAP_MOST: u32 = 30;

// 2: S of a part.
pub const DISTANCE_LEAST: u32 = 5_760_000;

// 3: the urban share of S, and the rural and the motorway share, in percent.
pub const URBAN_SHARE_LEAST: u8 = 29;

pub const URBAN_SHARE_MOST: u8 = 44;

pub const OTHER_SHARE_LEAST: u8 = 23;

pub const OTHER_SHARE_MOST: u8 = 43;

// 4: the urban mean, 0.01 km/h.
pub const URBAN_MEAN_LEAST: u64 = 1_500;

pub const URBAN_MEAN_MOST: u64 = 4_000;

// 5: the share of slow seconds among the urban ones, in percent.
pub const SLOW_SHARE_LEAST: u8 = 6;

pub const SLOW_SHARE_MOST: u8 = 30;

// 6: the seconds above 10,000.
pub const FAST_LEAST: u32 = 300;

// 7: the seconds above 14,500 as a share of the motorway ones, in percent.
pub const FASTER_SHARE_MOST: u64 = 3;
