// Leaves that the product calls only with figures of a trip, opened to the tests with figures of any
// size. It is no part of the library that is handed out.
#![tactic(auto)]

ghost use Rattle.std.specs.Prelude.{◌≡◌};
ghost use Rattle.lively.specs.Lively.{too_lively, too_dull};
ghost use Rattle.probe.specs.Window.{window_in_range, window_probe};

use base::Plan;
use windows::Window;

// Whether a bin is too lively: S, N and Q of any size.
#[unsafe(no_mangle)]
pub extern "C" fn probe_too_lively(s: u32, n: u32, q: u64) -> bool
    ensures { result ≡ too_lively s n q }
{
    lively::too_lively(s, n, q)
}

// Whether a bin is too dull: S, N and T of any size.
#[unsafe(no_mangle)]
pub extern "C" fn probe_too_dull(s: u32, n: u32, t: u64) -> bool
    ensures { result ≡ too_dull s n t }
{
    lively::too_dull(s, n, t)
}

// A window judged.
// Kept: the C interface: a flag, and the number of a class, beside the rest, as C reads them.
#[repr(C)]
#[derive(Clone, Copy)]
pub struct WindowProbe {
    pub judged: bool, // whether the plan is in range and there can be such a window
    pub inside: bool,
    pub class: usize, // 0 urban, 1 rural, 2 motorway, 3 none
}

// A window of any sum of speeds and mass above 0, and of any length that the comparisons have room for.
#[unsafe(no_mangle)]
pub extern "C" fn probe_window(plan: Plan, s: u32, m: u32, n: usize) -> WindowProbe
    ensures { result ≡ window_probe plan s m n }
{
    if !base::plan_in_range(plan) {
        return NOT_JUDGED;
    }
    if !window_in_range(s, m, n) {
        return NOT_JUDGED;
    }
    let window = Window { s, m, n };
    let (class, inside) = windows::counted_as(windows::judge(plan, window));
    WindowProbe {
        judged: true,
        inside,
        class,
    }
}

// Whether there can be a window of this sum of speeds, mass and length.
fn window_in_range(s: u32, m: u32, n: usize) -> bool
    ensures { result ≡ window_in_range s m n }
{
    (1 <= n) & (n <= windows::WINDOW_MOST) & (1 <= s) & (1 <= m)
}

const NOT_JUDGED: WindowProbe = WindowProbe {
    judged: false,
    inside: false,
    class: 0,
};
