// The lines of a report for one character, written into a lent slice.
#![tactic(auto)]

ghost use Rattle.std.specs.Prelude.{[], ◌+◌, ◌≤◌, length};
ghost use Rattle.layouts.specs.Report as text;
ghost use Rattle.fields.specs.Fitting.{Fitting};
ghost use Rattle.summaries.specs.Rooms.{Indexed};
ghost use Rattle.layouts.specs.Rooms.{Lists, node_room, character_room};

use fields::put_count;
use scores::Scores;

// The first-pass ranges, the final ranges and the chosen states. Subtree lengths are not printed: the contract has none in their place.
fn put_nodes(
    out: &mut [u8],
    at: usize,
    first_lows: &[u16],
    first_highs: &[u16],
    final_lows: &[u16],
    final_highs: &[u16],
    states: &[u16],
) -> usize
    requires { Lists first_lows.now first_highs.now final_lows.now final_highs.now states.now
        × (at + node_room (length first_lows.now) ≤ length out.old) }
    ensures { Fitting out.old out.new at result
        (text.node_lines (record {
          first_lows = first_lows.now;
          first_highs = first_highs.now;
          subtree = [];
          final_lows = final_lows.now;
          final_highs = final_highs.now;
          states = states.now;
        })) (node_room (length first_lows.now)) }
{
    let second = listings::put_ranges(out, at, b"first=", first_lows, first_highs);
    let third = listings::put_ranges(out, second, b"mpr=", final_lows, final_highs);
    listings::put_list(out, third, b"states=", states)
}

// The seven lines for a character. Nothing of them depends on the subtree lengths, so here too the contract has none.
// The five lists stay parameters: `Results` and the slices of `one_character` name each by itself.
pub fn put_character(
    out: &mut [u8],
    at: usize,
    character: u16,
    scores: Scores,
    first_lows: &[u16],
    first_highs: &[u16],
    final_lows: &[u16],
    final_highs: &[u16],
    states: &[u16],
) -> usize
    requires { Indexed scores × Lists first_lows.now first_highs.now final_lows.now final_highs.now states.now
        × (at + character_room (length first_lows.now) ≤ length out.old) }
    ensures { Fitting out.old out.new at result
        (text.character_lines character scores (record {
          first_lows = first_lows.now;
          first_highs = first_highs.now;
          subtree = [];
          final_lows = final_lows.now;
          final_highs = final_highs.now;
          states = states.now;
        })) (character_room (length first_lows.now)) }
{
    let second = put_count(out, at, b"character=", u32::from(character));
    let third = put_count(out, second, b"length=", scores.length);
    let sixth = put_nodes(
        out,
        third,
        first_lows,
        first_highs,
        final_lows,
        final_highs,
        states,
    );
    summaries::put_indices(out, sixth, scores)
}
