//! The end of a command: its saves, and its output.
ghost use Rattle.std.specs.Prelude.{◌≡◌, [], ℕ, List, map, IfErr, OnOk, Some};
ghost use Rattle.store_io.specs.Outside.{Poured};
ghost use Rattle.line_text.specs.Lines.{ended};
ghost use Rattle.tool_lines.specs.Texts.{joined};
ghost use Rattle.tool_lines.specs.Saying.{part_text};
ghost use Rattle.save_list.specs.Save.{numbered, names_of};
ghost use Rattle.save_list.specs.Saving.{HasSaved};
ghost use Rattle.command_walks.specs.Walk.{Ends};
ghost use Rattle.file_tools.specs.Troubles.{Follows, Stops};

use crate::trouble::Trouble;
use save_list::{SaveList, save_all};
use store_io::{Sink, Store};
use tool_lines::{Part, say_to_end};

// Saves all texts of a list, whatever the output is to be then.
#[tactic(auto, using(crate::proofs::SavingLaws::save_stops))]
fn save_texts<S: Store, L: SaveList + Drop>(store: &mut S, list: L) -> Result<(), Trouble>
    ensures all { OnOk result (HasSaved (L.save_at list) (L.count list) (S.state store.old) (S.state store.new)) }
    ensures stops { (output : List ℕ) → IfErr result (λ t. Stops t (Ends (numbered (L.save_at list) (L.count list)) output)
        (Some (names_of (numbered (L.save_at list) (L.count list)))) (S.state store.old) (S.state store.new)) }
{
    match save_all(store, &list) {
        Ok(()) => Ok(()),
        Err(error) => Err(Trouble::Failed(list.into_name(error.save))),
    }
}

/// Saves all texts of a list, where nothing is told on the output.
#[tactic(auto, using(crate::proofs::SavingLaws::nothing_more, crate::proofs::FollowLaws::passed_on))]
pub(crate) fn save_to_end<S: Store, L: SaveList + Drop>(
    store: &mut S,
    list: L,
) -> Result<(), Trouble>
    ensures { (pour : Poured) → Follows result (Ends (numbered (L.save_at list) (L.count list)) [])
        (Some (names_of (numbered (L.save_at list) (L.count list)))) (S.state store.old) (S.state store.new) pour pour }
{
    save_texts(store, list)?;
    Ok(())
}

/// Saves all texts of a list, and then tells a line on the output.
#[tactic(auto, using(crate::proofs::SavingLaws::told_line, crate::proofs::SavingLaws::lost_line, crate::proofs::FollowLaws::passed_on))]
pub(crate) fn save_and_tell<S: Store, O: Sink, L: SaveList + Drop>(
    store: &mut S,
    out: &mut O,
    list: L,
    line: &[Part<'_>],
) -> Result<(), Trouble>
    ensures { Follows result (Ends (numbered (L.save_at list) (L.count list)) (ended (joined (map part_text line.now))))
        (Some (names_of (numbered (L.save_at list) (L.count list)))) (S.state store.old) (S.state store.new)
        (O.state out.old) (O.state out.new) }
{
    save_texts(store, list)?;
    match say_to_end(out, line) {
        Ok(()) => Ok(()),
        Err(_) => Err(Trouble::Output),
    }
}
