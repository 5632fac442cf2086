// Turn after turn: what they tell, put into a lent text line behind line.
#![tactic(auto)]

ghost use Rattle.std.specs.Prelude.{◌≤◌, length};
ghost use Rattle.session.specs.Holding.{Holds, lists};
ghost use Rattle.lines.specs.Lines.{line_room};
ghost use Rattle.turns.specs.Filling.{Filled};

use session::Lists;
use state::State;
use turn::Turn;

// Turn after turn from a place on, until there is no more or the text has no room for another line. Their lines stand at
// the text's front then. Six slices stand beside `Lists` for a caller whose lists lie apart, so that it copies none.
pub fn fill_lent(
    stream: &[u8],
    place: usize,
    state: State,
    starts: &mut [u16],
    ends: &mut [u16],
    costs: &mut [u16],
    changed: &mut [u16],
    newcosts: &mut [u16],
    list: &mut [u16],
    text: &mut [u8],
) -> Turn
    requires holds { Holds state (lists starts.old ends.old costs.old changed.old newcosts.old list.old) }
    requires room { line_room ≤ length text.old }
    ensures { Filled stream.now place state (lists starts.old ends.old costs.old changed.old newcosts.old list.old) text.old result (lists starts.new ends.new costs.new changed.new newcosts.new list.new) text.new }
{
    let mut turn = Turn {
        state,
        next: place,
        end: 0,
        more: true,
    };
    while turn.more {
        if !lines::has_room(text.len(), turn.end) {
            return turn;
        }
        turn = turn::take_turn_lent(
            stream, turn, starts, ends, costs, changed, newcosts, list, text,
        );
    }
    turn
}

// The same over lists that lie in one struct.
pub fn fill(stream: &[u8], place: usize, state: State, lists: &mut Lists, text: &mut [u8]) -> Turn
    requires holds { Holds state lists.old }
    requires room { line_room ≤ length text.old }
    ensures { Filled stream.now place state lists.old text.old result lists.new text.new }
{
    fill_lent(
        stream,
        place,
        state,
        &mut lists.starts,
        &mut lists.ends,
        &mut lists.costs,
        &mut lists.changed,
        &mut lists.newcosts,
        &mut lists.list,
        text,
    )
}
