//! The first bytes of an open input.
ghost use Rattle.std.specs.Prelude.{◌≡◌, ◌≤◌, ◌<◌, ◌-◌, length, take, drop, IsTrue, IfOk, OnOk, true};
ghost use Rattle.program_file.specs.ProgramFiles.{most_bytes};
ghost use Rattle.program_file.specs.Pieces.{Takes, Gathers};

use std::alloc::Global;
use store_io::Store;

const MOST: usize = 4_202_497;

const ROOM: usize = 65536;

/// Why no bytes are there.
#[derive(Clone, Copy, Debug, PartialEq, Eq)]
pub(crate) enum Halt {
    /// The store failed.
    Failed,
    /// Memory was wanted.
    NoMemory,
}

// Takes a piece of the open input behind the bytes that are there; false where the input has ended.
fn take_piece<S: Store>(
    store: &mut S,
    text: &mut Vec<u8>,
    room: &mut [u8; ROOM],
) -> Result<bool, Halt>
    requires { length text.old.items < 4202497 }
    ensures gathers { IsTrue (S.state store.old).told → IfOk result (λ more. Gathers more text.old.items text.new.items
        (S.state store.old).left (S.state store.new).left) }
    ensures more { IfOk result (λ more. more ≡ true → length text.old.items < length text.new.items) }
    ensures most { OnOk result (length text.new.items ≤ 4202497) }
    ensures takes { Takes result (S.state store.old) (S.state store.new) }
{
    let want = (MOST - text.len()).min(ROOM);
    let count = match store.read(&mut room[..want]) {
        Ok(count) => count,
        Err(_) => return Err(Halt::Failed),
    };
    match text.extend_from_slice(&room[..count]) {
        Ok(()) => Ok(count > 0),
        Err(_) => Err(Halt::NoMemory),
    }
}

/// Takes the first 4,202,497 bytes of the open input, or all that it has, and no further one.
#[tactic(auto, using(crate::proofs::PieceLaws::full_text, crate::proofs::PieceLaws::full_left, crate::proofs::PieceLaws::whole_text, crate::proofs::PieceLaws::whole_left))]
pub(crate) fn take_bytes<S: Store>(alloc: Global, store: &mut S) -> Result<Vec<u8>, Halt>
    ensures text { IsTrue (S.state store.old).told →
        IfOk result (λ v. v.items ≡ take most_bytes (S.state store.old).left) }
    ensures left { IsTrue (S.state store.old).told →
        OnOk result ((S.state store.new).left ≡ drop most_bytes (S.state store.old).left) }
    ensures takes { Takes result (S.state store.old) (S.state store.new) }
{
    let mut text = Vec::new(alloc);
    let mut room = [0u8; ROOM];
    while text.len() < MOST {
        match take_piece(store, &mut text, &mut room) {
            Ok(true) => {}
            Ok(false) => return Ok(text),
            Err(halt) => return Err(halt),
        }
    }
    Ok(text)
}
