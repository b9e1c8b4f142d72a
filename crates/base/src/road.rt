// Urban, rural, motorway: the bins of seconds and the classes of windows, in the paper's order.

ghost use Rattle.std.specs.Prelude.{◌≡◌, ◌<◌};
ghost use Rattle.base.specs.Roads.{road_number};

// A bin of seconds, or a class of windows.
#[derive(Clone, Copy, PartialEq, Eq)]
pub enum Road {
    Urban,
    Rural,
    Motorway,
}

impl Road {
    // Its place among the figures of the three.
    pub fn index(self) -> usize
        ensures number { result ≡ road_number self }
        ensures one_of_three { result < 3 }
    {
        self as usize
    }
}
