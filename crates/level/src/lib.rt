// The numbers of a network in which the mark is the ceiling.
#![tactic(auto)]

ghost use Rattle.std.specs.Prelude.{◌≡◌};
ghost use Rattle.level.specs.Level.{leveled};

use rules::Profile;

// The same numbers with the mark for ceiling.
pub fn leveled(profile: Profile) -> Profile
    ensures { result ≡ leveled profile }
{
    Profile {
        most: profile.most,
        ceiling: profile.mark as u64,
        mark: profile.mark,
    }
}
