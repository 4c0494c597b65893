// The intervals of a script that are open, by their names.
ghost use Rattle.std.specs.Prelude.{◌≡◌, IfSome, option_copied, option_map};
ghost use Rattle.player.specs.Intervals.{interval_of, others};

use std::collections::BTreeMap;
use terminal::interval::Interval;

pub type Intervals = BTreeMap<Vec<u8>, Interval>;

// The interval of a name.
pub fn find<'i>(open: &'i Intervals, name: &[u8]) -> Option<&'i Interval>
    ensures { option_copied result ≡ interval_of name.now «open».now }
{
    open.get(name)
}

// Takes the interval of a name out of those that are open, with the name that it stands under.
#[tactic(auto, using(crate::proofs::Names::same))]
pub fn take(open: &mut Intervals, name: &[u8]) -> Option<(Vec<u8>, Interval)>
    ensures taken { option_map (λ p. p.1) result ≡ interval_of name.now «open».old }
    ensures name { IfSome result (λ p. p.0.items ≡ name.now) }
    ensures others { «open».new.entries ≡ others name.now «open».old }
{
    open.remove_entry(name)
}
