//! How many values live at once.

ghost use Rattle.std.specs.Prelude.{◌≡◌, ◌<◌, length};
ghost use Rattle.overlap.specs.Lifetimes.{lifetimes_of};
ghost use Rattle.registers.specs.Crowds.{crowd_in};

use loop_schedules::Schedule;
use overlap::Lifetime;
use registers::crowd_in;

/// How many registers hold a value in the cycle of a row once the loop runs steadily: the instances of
/// all values, of any iteration, that live in it. The lifetimes are those of the schedule.
pub fn live_in(schedule: &Schedule, lives: &[Lifetime], row: u64) -> u64
    requires lives { lives.now ≡ lifetimes_of schedule.now }
    requires row { row < schedule.now.ii }
    ensures value { result ≡ crowd_in schedule.now.ii row lives.now (length lives.now) }
{
    crowd_in(schedule.ii(), row, lives)
}
