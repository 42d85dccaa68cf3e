// The addresses of a lent window: rule 28 of them all, and whether a block is wholly inside, which rule 29 asks.
ghost use Rattle.std.specs.Prelude.{◌≡◌, ◌+◌, ◌^◌, ◌≤◌};

use fields::LoadAddress;
use fields::refusal::Reason;

// The first of them, and how many they are. None lies past the last address of all.
#[derive(Clone, Copy)]
pub struct Window {
    pub base: usize,
    pub room: usize,
    ghost low: { base + room ≤ 2 ^ 32 },
}

impl Window {
    ghost use Rattle.std.specs.Prelude.{not, IfOk};
    ghost use Rattle.fields.specs.Rules.{ruling_of};
    ghost use Rattle.fields.specs.Refusal.{told_whole_by};
    ghost use Rattle.loader.specs.Loading.{window_rules};
    ghost use Rattle.loader.specs.Placing.{is_range_outside};

    // Refused where it is too long or reaches past the last address. No sum is made before it is known to fit.
    pub fn new(base: usize, room: usize) -> Result<Window, Reason>
        ensures answers { told_whole_by (λ w. tt) result ≡ ruling_of (window_rules base room) }
        ensures window { IfOk result (λ w. (w.base ≡ base) × (w.room ≡ room)) }
    {
        if 16777216 < room {
            return Err(Reason::Window);
        }
        if 4294967296 - room < base {
            return Err(Reason::Window);
        }
        Ok(Window { base, room })
    }

    // All of `size` bytes from `load` on are inside.
    pub fn holds(self, load: LoadAddress, size: u32) -> bool
        ensures { result ≡ not (is_range_outside self.base self.room load.0 size) }
    {
        let from = load.0 as usize;
        !((from < self.base) | (self.base + self.room < from + size as usize))
    }
}
