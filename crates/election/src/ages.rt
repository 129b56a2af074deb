//! Ages, in ticks of the node itself.
ghost use Rattle.std.specs.Prelude.{◌≡◌, option_map};
ghost use Rattle.election.specs.Electing.{is_over};
ghost use Rattle.election.specs.Failing.{older};

// Past each time that is waited for: a report counts, and an election lasts, for at most 2 * 1,000,000 ticks.
const OLDEST: u32 = 2_000_001;

// The age a tick later.
pub(crate) fn older(age: u32) -> u32
    ensures { result ≡ older age }
{
    if age < OLDEST { age + 1 } else { OLDEST }
}

/// The age a tick later, if there is one. It counts no further than any time that is waited for.
pub fn older_if_any(age: Option<u32>) -> Option<u32>
    ensures { result ≡ option_map older age }
{
    age.map(older)
}

/// Whether nothing began, or so many ticks ago.
pub fn is_over(age: Option<u32>, wait: u64) -> bool
    ensures { result ≡ is_over age wait }
{
    match age {
        None => true,
        Some(age) => wait <= age as u64,
    }
}
