// Sets of classes as one number, and the subclass test over a table that has such a set for each class.
#![tactic(auto)]

ghost use Rattle.std.specs.Prelude.{◌≡◌, ◌-◌, ◌≤◌, ◌<◌, length};
ghost use Rattle.language.specs.Effects.{member, effect_of};
ghost use Rattle.classes.specs.Subclasses.{is_below};
ghost use Rattle.language.specs.Limits.{of_check};

use language::Type;

// The bit of a class in a set.
fn place_of(class: u32) -> u32
    ensures { result ≡ class - 1 }
{
    class.saturating_sub(1)
}

// Whether a class is in a set.
pub fn is_member(set: u64, class: u32) -> bool
    requires { class ≤ of_check.classes }
    ensures { result ≡ member set class }
{
    (set >> place_of(class)) & 1 == 1
}

// The set of one class.
pub fn effect_of(class: u32) -> u64
    requires { class ≤ of_check.classes }
    ensures { result ≡ effect_of class }
{
    1u64 << place_of(class)
}

// Whether a class is another or stands below it: every class stands below Object, which is class 0 and in no set.
#[tactic(auto, unfolding(crate::specs::Subclasses::is_below))]
pub fn is_below(above: &[u64], class: u32, over: u32) -> bool
    requires { (class < length above.now) × (over ≤ of_check.classes) }
    ensures { result ≡ is_below above.now class over }
{
    over == Type::OBJECT || is_member(above[class as usize], over)
}
