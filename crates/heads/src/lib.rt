// Where the links that leave each node begin.
#![tactic(auto)]

ghost use Rattle.basics.specs.Leaving.{Leaving};
ghost use Rattle.heads.specs.Heads.{Heads};

// For each node the first link that leaves it, or the number of links where none does (a number of 16 bits and no Option: fixed
// memory): the last store is the first link's.
pub fn first_links(starts: &[u16]) -> [u16; 256]
    requires { Leaving starts.now }
    ensures { Heads starts.now result }
{
    let links = starts.len();
    let mut at = [links as u16; 256];
    for k in (0..links).rev() {
        at[starts[k] as usize] = k as u16;
    }
    at
}
